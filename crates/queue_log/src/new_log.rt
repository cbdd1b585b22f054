// The log that is made where there is none.

ghost use Rattle.std.specs.Prelude.{◌≡◌, ◌++◌, ◌∷◌, [], Ok, IfOk, IfErr, OnOk, None, codes, string_bytes};
ghost use Rattle.ad_value.specs.Writing.{AddsText};
ghost use Rattle.ad_rows.specs.Rows.{integer_literal};
ghost use Rattle.queue_tx.specs.declared.key.Key.TheVariants.{Header};
ghost use Rattle.queue_tx.specs.Operations.{new_ad, set_attr};
ghost use Rattle.queue_log.specs.declared.new_log.TheConstants.{HEADER_KIND, HEADER_OTHER};
ghost use Rattle.queue_tx.specs.Queues.{queue_after};
ghost use Rattle.queue_record.specs.ReadSoFar.{start, fed};
ghost use Rattle.queue_record.specs.Texts.{AreTexts, first_long};
ghost use Rattle.queue_log.specs.Logged.{IsLogged};
ghost use Rattle.queue_log.specs.Stands.{IsSettled};
ghost use Rattle.queue_log.specs.NewLog.{new_log_text, new_log_tx, stamp_line};

use crate::error::LogError;
use ad_tree::Expr;
use ad_value::{Memory, Text, Value};
use queue_record::print_tx;
use queue_tx::{Key, NEXT_CLUSTER_NUM, NEXT_RUN_NUM, Op, Queue, Tx, TxList};
use std::alloc::{AllocError, Global};
use std::fmt::Write;

/// The two words that a log keeps beside the key of its header.
pub(crate) const HEADER_KIND: &str = "Job";

pub(crate) const HEADER_OTHER: &str = "Machine";

/// A log's text, with its transaction and the queue that this builds.
pub(crate) struct NewLog {
    pub(crate) text: String,
    pub(crate) list: TxList,
    pub(crate) queue: Queue,
}

impl Drop for NewLog {
    fn drop(self) {
        let NewLog {
            text: _text,
            list: _list,
            queue: _queue,
        } = self;
    }
}

impl NewLog {
    pub(crate) fn into_parts(self) -> (String, TxList, Queue)
        ensures { result ≡ (self.text, self.list, self.queue) }
    {
        let NewLog { text, list, queue } = self;
        (text, list, queue)
    }
}

// The log that is begun at a reading.
pub(crate) fn new_log(alloc: Global, reading: u64) -> Result<NewLog, LogError>
    ensures text { IfOk result (λ new. string_bytes new.text ≡ new_log_text reading) }
    ensures list { IfOk result (λ new. new.list ≡ new_log_tx ∷ []) }
    ensures logged { IfOk result (λ new. IsLogged new.list new.queue) }
    ensures settled { IfOk result (λ new.
        IsSettled (new_log_tx ∷ []) new.queue (new_log_text reading)) }
    ensures sequence { OnOk result ((fed start (new_log_text reading)).sequence ≡ 1) }
    ensures refused { IfErr result (λ error. error ≡ LogError.Memory) }
{
    let tx = new_log_tx(alloc)?;
    let text = new_log_text(alloc, &tx, reading)?;
    let mut txs = Vec::new(alloc);
    txs.reserve(1)?;
    let queue = queue_of(alloc, &tx)?;
    txs.push(tx).unwrap();
    Ok(NewLog {
        text,
        list: TxList::from_vec(txs),
        queue,
    })
}

fn queue_of(alloc: Global, tx: &Tx) -> Result<Queue, Memory>
    ensures { IfOk result (λ queue. queue_after [] tx.now ≡ Ok queue) }
{
    let mut queue = Queue::new();
    match queue.apply(alloc, tx) {
        Ok(()) => Ok(queue),
        Err(_) => Err(Memory),
    }
}

// The header's ad, with the numbers of the first cluster and the first run.
fn new_log_tx(alloc: Global) -> Result<Tx, Memory>
    ensures { IfOk result (λ tx. tx ≡ new_log_tx) }
{
    let mut tx = Tx::new(alloc);
    match say_new_log(alloc, &mut tx) {
        Ok(()) => Ok(tx),
        Err(error) => Err(error),
    }
}

#[tactic(auto, unfolding(crate::specs::NewLog::new_log_tx))]
fn say_new_log(alloc: Global, tx: &mut Tx) -> Result<(), Memory>
    requires { tx.old ≡ [] }
    ensures { OnOk result (tx.new ≡ new_log_tx) }
{
    say_header(alloc, tx)?;
    set_one(alloc, tx, NEXT_CLUSTER_NUM)?;
    set_one(alloc, tx, NEXT_RUN_NUM)
}

fn say_header(alloc: Global, tx: &mut Tx) -> Result<(), Memory>
    ensures { OnOk result
        (tx.new ≡ tx.old ++ new_ad Header HEADER_KIND.now HEADER_OTHER.now ∷ []) }
{
    let kind = Text::from_str(alloc, HEADER_KIND)?;
    let other = Text::from_str(alloc, HEADER_OTHER)?;
    tx.push(Op::NewAd {
        key: Key::Header,
        kind,
        other,
    })?;
    Ok(())
}

fn set_one(alloc: Global, tx: &mut Tx, name: &str) -> Result<(), Memory>
    ensures { OnOk result (tx.new ≡ tx.old ++ set_attr Header name.now (integer_literal 1) ∷ []) }
{
    let name = Text::from_str(alloc, name)?;
    tx.push(Op::SetAttr {
        key: Key::Header,
        name,
        expr: Expr::Lit(Value::Int(1)),
    })?;
    Ok(())
}

// The text of a log that is begun at a reading. Its lines are short.
#[tactic(auto, unfolding(crate::specs::NewLog::new_log_text))]
fn new_log_text(alloc: Global, tx: &Tx, reading: u64) -> Result<String, Memory>
    requires { tx.now ≡ new_log_tx }
    ensures text { IfOk result (λ text. string_bytes text ≡ new_log_text reading) }
    ensures fits { OnOk result (first_long new_log_tx ≡ None) }
    ensures are_texts { OnOk result (AreTexts new_log_tx) }
{
    let mut text = String::new(alloc);
    write_stamp(&mut text, reading)?;
    let Ok(printed) = print_tx(alloc, tx) else {
        return Err(Memory);
    };
    text.push_str(printed.as_str())?;
    Ok(text)
}

fn write_stamp(text: &mut String, reading: u64) -> Result<(), AllocError>
    ensures { OnOk result (AddsText text.old text.new (stamp_line reading ++ codes "\n")) }
{
    write!(text, "107 1 CreationTimestamp {reading}\n")
}

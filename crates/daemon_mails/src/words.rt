// The words of a mail.

use ad_tree::Ad;
use claim_id::{ClaimId, ClaimNo, JobId, Pair, RunNo, SlotId};
use daemon_texts::{
    TextError, pair_of, read_ad, read_claim, read_claim_no, read_job, read_number, read_run,
    read_signed, slot_id_of,
};
use std::alloc::Global;

// The words of a mail, and the text of its ad.
pub(crate) struct Words<'a> {
    words: Vec<&'a str>,
    next: usize,
    ad: Option<&'a str>,
}

impl Drop for Words<'_> {
    fn drop(self) {
        let Words {
            words: _words,
            next: _,
            ad: _,
        } = self;
    }
}

impl<'a> Words<'a> {
    pub(crate) fn of(alloc: Global, text: &'a str) -> Result<Words<'a>, TextError> {
        let (head, ad) = match text.split_once(" ad=") {
            Some((head, ad)) => (head, Some(ad)),
            None => (text, None),
        };
        let words = head.split(' ').collect(alloc)?;
        Ok(Words { words, next: 0, ad })
    }

    pub(crate) fn word(&mut self) -> Result<&'a str, TextError> {
        let Some(word) = self.words.get(self.next) else {
            return Err(TextError::Form);
        };
        self.next = self.next.saturating_add(1);
        Ok(word)
    }

    // The value of the next field, which has this name.
    pub(crate) fn value(&mut self, name: &str) -> Result<&'a str, TextError> {
        match self.word()?.split_once('=') {
            Some((named, value)) if named == name => Ok(value),
            _ => Err(TextError::Form),
        }
    }

    pub(crate) fn number(&mut self, name: &str) -> Result<u64, TextError> {
        read_number(self.value(name)?)
    }

    pub(crate) fn truth(&mut self, name: &str) -> Result<bool, TextError> {
        match self.value(name)? {
            "true" => Ok(true),
            "false" => Ok(false),
            _ => Err(TextError::Form),
        }
    }

    pub(crate) fn job(&mut self) -> Result<JobId, TextError> {
        read_job(self.value("job")?)
    }

    pub(crate) fn claim(&mut self) -> Result<ClaimId, TextError> {
        read_claim(self.value("claim")?)
    }

    pub(crate) fn some_claim(&mut self) -> Result<Option<ClaimId>, TextError> {
        read_some_claim(self.value("claim")?)
    }

    pub(crate) fn claim_no(&mut self, alloc: Global) -> Result<ClaimNo, TextError> {
        read_claim_no(alloc, self.value("claim")?)
    }

    pub(crate) fn slot(&mut self) -> Result<SlotId, TextError> {
        match slot_id_of(self.value("slot")?) {
            Some(slot) => Ok(slot),
            None => Err(TextError::Form),
        }
    }

    pub(crate) fn pair(&mut self) -> Result<Pair, TextError> {
        read_pair(self.value("pair")?)
    }

    pub(crate) fn rank(&mut self) -> Result<i64, TextError> {
        read_signed(self.value("rank")?)
    }

    pub(crate) fn run(&mut self, alloc: Global) -> Result<RunNo, TextError> {
        read_run(alloc, self.value("run")?)
    }

    pub(crate) fn ad(&mut self, alloc: Global) -> Result<Ad, TextError> {
        match self.ad.take() {
            Some(text) => read_ad(alloc, text),
            None => Err(TextError::Form),
        }
    }

    // Nothing may be left.
    pub(crate) fn end(&self) -> Result<(), TextError> {
        if self.next == self.words.len() && self.ad.is_none() {
            Ok(())
        } else {
            Err(TextError::Form)
        }
    }
}

fn read_pair(text: &str) -> Result<Pair, TextError> {
    match pair_of(text) {
        Some(pair) => Ok(pair),
        None => Err(TextError::Form),
    }
}

fn read_some_claim(text: &str) -> Result<Option<ClaimId>, TextError> {
    if text == "-" {
        return Ok(None);
    }
    Ok(Some(read_claim(text)?))
}

//! What holds of every configuration.

ghost use Rattle.std.specs.Prelude.{◌≡◌, ◌≢◌, ◌++◌, ℕ, List, All, length, Ok, Err, true};
ghost use Rattle.ad_token.specs.Names.{is_name};
ghost use Rattle.line_text.specs.Lines.{logical_lines};
ghost use Rattle.pool_config.specs.declared.error.ConfigError.{ConfigError};
ghost use Rattle.pool_config.specs.declared.error.ConfigError.TheVariants as error;
ghost use Rattle.pool_config.specs.declared.setting_word.Interval.{Interval};
ghost use Rattle.pool_config.specs.Configuration.{Configuration, plain_configuration, total_slots};
ghost use Rattle.pool_config.specs.Laws.{CountsLast, IsFirstRefused, seconds_of};
ghost use Rattle.pool_config.specs.Lines.{IsConfiguration, ReadResult, begun};
ghost use Rattle.pool_config.specs.Ranges.{HasSeconds, HasUsers};
ghost use Rattle.pool_config.specs.Slots.{configured_slots, pool_attributes, slot_ad};

/// A text is a configuration or is refused, and once.
pub fn text_has_one_outcome()
    ensures some { (text : List ℕ) → (q : ReadResult) × IsConfiguration text q }
    ensures one { (text : List ℕ) (q p : ReadResult)
        → IsConfiguration text q → IsConfiguration text p → q ≡ p }
{}

/// A refusal but for want of a machine is that of the first line that is refused: the lines before
/// it are taken.
pub fn first_bad_line_is_refused()
    ensures { (text : List ℕ) (f : ConfigError) → IsConfiguration text (Err f)
        → f ≢ error.NoMachine → IsFirstRefused (logical_lines text) begun f }
{}

/// A time is the number of the last line that sets it, or its default where no line does.
pub fn last_time_counts()
    ensures { (text : List ℕ) (c : Configuration) (i : Interval) → IsConfiguration text (Ok c)
        → CountsLast (logical_lines text) i (seconds_of i plain_configuration) (seconds_of i c) }
{}

/// The owner is a name.
pub fn owner_is_a_name()
    ensures { (text : List ℕ) (c : Configuration) → IsConfiguration text (Ok c)
        → is_name c.owner ≡ true }
{}

/// Each time is from its least, 1 or 0, to `MAX_SECONDS`.
pub fn seconds_are_in_range()
    ensures { (text : List ℕ) (c : Configuration) → IsConfiguration text (Ok c) → HasSeconds c }
{}

/// Each ceiling is at most `MAX_CEILING`, and each factor from 1 to `MAX_FACTOR`.
pub fn users_are_in_range()
    ensures { (text : List ℕ) (c : Configuration) → IsConfiguration text (Ok c) → HasUsers c }
{}

/// There are as many slots as the machines say.
pub fn slots_are_counted()
    ensures { (c : Configuration) → length (configured_slots c) ≡ total_slots c.machines }
{}

/// The ad of each slot is what the pool gives it and, behind that, its machine's own attributes as
/// they are.
pub fn own_attributes_come_last()
    ensures { (text : List ℕ) (c : Configuration) → IsConfiguration text (Ok c)
        → All (λ m. (k : ℕ) → slot_ad m k ≡ pool_attributes m k ++ m.attrs) c.machines }
{}

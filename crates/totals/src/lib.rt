// How many messages came to what.
#![tactic(auto)]

ghost use Rattle.std.specs.Prelude.{◌≡◌, replicate, Some};
ghost use Rattle.totals.specs.Totals.{accepting, refusing, refusal_count, refusal_counts, totals_text};

use std::fmt;
use wire::refusal::Refusal;

#[derive(Drop)]
pub struct Totals {
    messages: u64,
    accepted: u64,
    // Those refused by 1 first: the numbers have no gaps, and no memory is asked for.
    refused: [u64; 18],
}

impl Totals {
    // Nothing was read yet.
    pub fn new() -> Totals
        ensures { (result.messages ≡ 0) × (result.accepted ≡ 0) × (result.refused ≡ replicate 18 0) }
    {
        Totals {
            messages: 0,
            accepted: 0,
            refused: [0; 18],
        }
    }

    // Counts a message that was accepted.
    pub fn accept(&mut self)
        ensures { self.new ≡ accepting self.old }
    {
        self.messages = self.messages.saturating_add(1);
        self.accepted = self.accepted.saturating_add(1);
    }

    // Counts a message that was refused.
    pub fn refuse(&mut self, refusal: Refusal)
        ensures { self.new ≡ refusing refusal self.old }
    {
        let (number, _) = refusal.told();
        let place = usize::from(number) - 1;
        self.messages = self.messages.saturating_add(1);
        self.refused[place] = self.refused[place].saturating_add(1);
    }
}

// How many were refused by a number; nothing is said where none was.
#[derive(Clone, Copy)]
struct RefusalCount {
    number: usize,
    count: u64,
}

impl fmt::Display for RefusalCount {
    ghost output = { λ counted. Some (refusal_count counted.number counted.count) };

    fn fmt<W: fmt::Write>(&self, f: &mut fmt::Formatter<W>) -> fmt::Result {
        if self.count == 0 {
            return Ok(());
        }
        let (number, count) = (self.number, self.count);
        write!(f, ", {count} refused by {number}")
    }
}

// How many were refused by each number.
#[derive(Clone, Copy)]
struct RefusalCounts<'a>(&'a [u64]);

impl fmt::Display for RefusalCounts<'_> {
    ghost output = { λ counts. Some (refusal_counts 1 counts.0.now) };

    fn fmt<W: fmt::Write>(&self, f: &mut fmt::Formatter<W>) -> fmt::Result {
        for (place, count) in self.0.iter().enumerate() {
            let (number, count) = (place + 1, *count);
            f.write(RefusalCount { number, count })?;
        }
        Ok(())
    }
}

impl fmt::Display for Totals {
    ghost output = { λ totals. Some (totals_text totals) };

    fn fmt<W: fmt::Write>(&self, f: &mut fmt::Formatter<W>) -> fmt::Result {
        let (messages, accepted) = (self.messages, self.accepted);
        let refusals = RefusalCounts(&self.refused);
        write!(
            f,
            "# {messages} messages read, {accepted} accepted{refusals}"
        )
    }
}

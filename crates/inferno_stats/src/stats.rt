ghost use Rattle.std.specs.Prelude.{◌≡◌, IfOk, string_bytes, decimal};
ghost use Rattle.inferno_stats.specs.Stats.{stats_in, stats_line};

use dis_machine::{Event, Journal};
use std::alloc::{AllocError, Global};

/// What a run took.
#[derive(Clone, Copy)]
pub struct Stats {
    /// How many quanta its journal has.
    pub quanta: u64,
    /// How many replies its journal has.
    pub replies: u64,
}

/// The decimal digits of a number.
fn digits(alloc: Global, number: u64) -> Result<String, AllocError>
    ensures { IfOk result (λ text. string_bytes text ≡ decimal number) }
{
    format!(in alloc; "{number}")
}

impl Stats {
    /// What the run took whose journal this is.
    pub fn of(journal: &Journal) -> Stats
        ensures { result ≡ stats_in journal.now.events }
    {
        let mut quanta = 0;
        let mut replies = 0;
        for event in journal.events.as_slice() {
            match event {
                Event::Quantum { .. } => quanta += 1,
                Event::Reply { .. } => replies += 1,
                Event::Down { .. } => {}
            }
        }
        Stats { quanta, replies }
    }

    /// The line about it.
    ///
    /// # Errors
    /// Want of memory.
    pub fn line(self, alloc: Global) -> Result<Vec<u8>, AllocError>
        ensures { IfOk result (λ bytes. bytes.items ≡ stats_line self) }
    {
        let quanta = digits(alloc, self.quanta)?;
        let replies = digits(alloc, self.replies)?;
        let mut bytes = Vec::from_slice(alloc, b"stats: quanta ")?;
        bytes.extend_from_slice(quanta.as_bytes())?;
        bytes.extend_from_slice(b" replies ")?;
        bytes.extend_from_slice(replies.as_bytes())?;
        bytes.push(b'\n')?;
        Ok(bytes)
    }
}

// Reading a rule: its grammar, its limits, and how many states and rows it takes. The readers are lent no buffer.
#![tactic(auto)]

mod answers;
mod conditions;
mod letters;
mod numbers;
mod plain;
mod programs;
mod scope;
mod settings;
mod statements;

ghost use Rattle.reader.specs.Reading.{ReadsTo};

pub use answers::Counts;
use programs::program_of;
use table::reason::{Reason, Refusal};

// 10 and 11 come only behind a text that is otherwise right, so states and rows are counted past their limits.
pub fn read(text: &[u8]) -> Result<Counts, Refusal>
    ensures { ReadsTo text.now result }
{
    if text.len() > 4096 {
        return Err(Refusal {
            reason: Reason::LongText,
            place: 0,
        });
    }
    let counts = program_of(text)?;
    if counts.states > 128 {
        return Err(Refusal {
            reason: Reason::States,
            place: text.len(),
        });
    }
    if counts.rows > 1024 {
        return Err(Refusal {
            reason: Reason::Rows,
            place: text.len(),
        });
    }
    Ok(counts)
}

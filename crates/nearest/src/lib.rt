// The nearest control word (document 02, CR 10): the word of d bits whose tail-biting code differs in the fewest places from three streams that were heard.
#![tactic(auto)]

mod gate;
mod goals;
mod prices;
mod rows;
mod words;

ghost use Rattle.std.specs.Prelude.{◌≡◌};
ghost use Rattle.nearest.specs.Promises.{answer_found, WordFound};

use bits::number::Refusal;

// The nearest word, as it was written: how many octets, and in how many places its code differs from what was heard.
#[derive(Clone, Copy)]
pub struct Closest {
    pub count: usize,
    pub differences: usize,
}

// What C is answered: a number and, where it is 0, the count and the differences; 0 and 0 with a refusal.
#[repr(C)]
#[derive(Clone, Copy)]
pub struct Found {
    pub number: u32,
    pub count: usize,
    pub differences: usize,
}

impl From<Result<Closest, Refusal>> for Found {
    ghost from_gives = { λ answer r. r ≡ answer_found answer };

    fn from(answer: Result<Closest, Refusal>) -> Found {
        match answer {
            Ok(closest) => Found {
                number: 0,
                count: closest.count,
                differences: closest.differences,
            },
            Err(refusal) => Found {
                number: refusal.number(),
                count: 0,
                differences: 0,
            },
        }
    }
}

// Writes the nearest word of d bits. The three streams that were heard lie as control's: whole, one after the other, in the order of their generators.
pub fn nearest_word(d: usize, heard: &[u8], out: &mut [u8]) -> Result<Closest, Refusal>
    ensures { WordFound d heard.now out.old (answer_found result) out.new }
{
    gate::admit_nearest(d, heard, out.len())?;
    let differences = usize::from(goals::put_nearest(d, heard, out));
    Ok(Closest {
        count: d,
        differences,
    })
}

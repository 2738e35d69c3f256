// The costs of the 64 states, carried as a whole array from the last step to the first.
ghost use Rattle.std.specs.Prelude.{◌≡◌, ◌+◌, ◌<◌, ◌≤◌, length, get_or};
ghost use Rattle.nearest.specs.Steps.Trellis.{cost, end_at, end_open};
ghost use Rattle.nearest.specs.Steps.Rows.{Prices, Stepped, Low, AtMost, chosen, Row, Filled, Ranked, Least, Ready};

use crate::prices;

// What an end elsewhere costs: more than any word, 384 at most.
const FAR: u16 = 500;

// The costs one step before `after`, where h is heard. The states 2j and 2j + 1 both go to j with the bit 0 and to 32 + j with the bit 1.
fn step_back(after: [u16; 64], h: u8, prices: &[[u16; 32]; 8]) -> [u16; 64]
    requires { (h < 8) × Prices 8 prices.now × Low after }
    ensures { Stepped h after 64 result }
{
    let prices = &prices[usize::from(h)];
    let mut row = [0u16; 64];
    for j in 0..32 {
        let x = prices[j];
        let y = 3 - x;
        let zero = after[j];
        let one = after[32 + j];
        row[2 * j] = (x + zero).min(y + one);
        row[2 * j + 1] = (y + zero).min(x + one);
    }
    row
}

// What it costs to end, where the goal is the only end.
#[tactic(auto, unfolding(crate::specs::Steps::Trellis::end_at))]
pub fn end_at(goal: usize) -> [u16; 64]
    requires { goal < 64 }
    ensures { result ≡ end_at goal }
{
    let mut row = [FAR; 64];
    row[goal] = 0;
    row
}

// What it costs to end, where every state is an end.
#[tactic(auto, unfolding(crate::specs::Steps::Trellis::end_open))]
pub fn end_open() -> [u16; 64]
    ensures { result ≡ end_open }
{
    [0u16; 64]
}

// Writes a row of costs for each number of steps left, from none to d, and answers the last one.
pub fn fill(
    d: usize,
    steps: &[u8; 128],
    prices: &[[u16; 32]; 8],
    end: [u16; 64],
    costs: &mut [[u16; 64]; 129],
) -> [u16; 64]
    requires { Ready d steps.now prices.now × AtMost 500 end }
    ensures { Row (cost steps.now) end d 0 result × Filled (cost steps.now) end d d costs.new }
{
    let mut row = end;
    costs[0] = row;
    for n in 0..d {
        let before = step_back(row, steps[d - 1 - n], prices);
        costs[n + 1] = before;
        row = before;
    }
    row
}

// The bit of the cheaper way from the state s on, 0 where it costs no more, by the costs after this step.
pub fn chosen(prices: &[[u16; 32]; 8], h: u8, after: &[u16; 64], s: usize) -> usize
    requires { (h < 8) × (s < 64) × Prices 8 prices.now × Low after.now }
    ensures { (result ≡ chosen h after.now s) × (result < 2) }
{
    let x = prices::zero_price(prices, h, s);
    let zero = x + after[s / 2];
    let one = 3 - x + after[32 + s / 2];
    usize::from(one < zero)
}

// The costs, each 64 times and with its state behind it: the least of them tells both.
pub fn ranked(row: &[u16; 64]) -> [u16; 64]
    requires { AtMost 384 row.now }
    ensures { Ranked row.now 64 result }
{
    let mut keys = [0u16; 64];
    for s in 0..64 {
        keys[s] = row[s] * 64 + s as u16;
    }
    keys
}

// The least of 64.
pub fn least_of(keys: &[u16; 64]) -> u16
    ensures { Least keys.now 64 result }
{
    let mut v = keys[0];
    for key in &keys[1..] {
        v = v.min(*key);
    }
    v
}

// One goal, the start that is also the end, and all 64.
ghost use Rattle.std.specs.Prelude.{◌≡◌, ◌++◌, ◌+◌, ◌<◌, ◌≤◌, length, take, drop, set};
ghost use Rattle.bits.specs.Bits.{AreBits, digits};
ghost use Rattle.nearest.specs.Nearest.{away, nearest};
ghost use Rattle.nearest.specs.Steps.Trellis.{cost, end_at, goal_cost, goal_word, Best};
ghost use Rattle.nearest.specs.Steps.Rows.{Filled, Ready};

use crate::{prices, rows, words};

// In the place of a goal that was tried: a 64th of it is more than any cost, 884 at most. A number and no Option, so that the least of 64 is found in vectors.
const CROSSED: u16 = 65535;

// Writes the goal's word: from the first step on, 0 where it costs no more.
fn walk(
    d: usize,
    steps: &[u8; 128],
    prices: &[[u16; 32]; 8],
    goal: usize,
    costs: &[[u16; 64]; 129],
    word: &mut [u8],
)
    requires { Ready d steps.now prices.now × (goal < 64) × Filled (cost steps.now) (end_at goal) d d costs.now × (d ≤ length word.old) }
    ensures { word.new ≡ goal_word (cost steps.now) d goal ++ drop d word.old }
{
    let mut s = goal;
    for k in 0..d {
        let b = rows::chosen(prices, steps[k], &costs[d - 1 - k], s);
        word[k] = b as u8;
        s = (b * 64 + s) / 2;
    }
}

// Writes the word of the first goal that is tried, and answers its cost.
fn first_goal(
    d: usize,
    steps: &[u8; 128],
    prices: &[[u16; 32]; 8],
    goal: usize,
    out: &mut [u8],
    costs: &mut [[u16; 64]; 129],
) -> u16
    requires { Ready d steps.now prices.now × (goal < 64) × (d ≤ length out.old) }
    ensures { (result ≡ goal_cost (cost steps.now) d goal) × (out.new ≡ goal_word (cost steps.now) d goal ++ drop d out.old) }
{
    let row = rows::fill(d, steps, prices, rows::end_at(goal), costs);
    walk(d, steps, prices, goal, costs, out);
    row[goal]
}

// Crosses a goal off, and keeps the better of the best so far, whose word stands in out, and this one.
fn next_goal(
    d: usize,
    steps: &[u8; 128],
    prices: &[[u16; 32]; 8],
    goal: usize,
    best: u16,
    left: &mut [u16; 64],
    out: &mut [u8],
    costs: &mut [[u16; 64]; 129],
) -> u16
    requires { Ready d steps.now prices.now × (goal < 64) × (d ≤ length out.old) × Best (cost steps.now) d left.old best (take d out.old) }
    ensures { Best (cost steps.now) d left.new result (take d out.new) × (drop d out.new ≡ drop d out.old) × (left.new ≡ set left.old goal 65535) }
{
    left[goal] = CROSSED;
    let row = rows::fill(d, steps, prices, rows::end_at(goal), costs);
    let v = row[goal];
    if best < v {
        return best;
    }
    let mut word = [0u8; 128];
    walk(d, steps, prices, goal, costs, &mut word);
    words::keep(d, best, out, v, &word)
}

// Writes the nearest word to the front of out, and answers in how many places its code differs from what was heard. The goals are tried from where an open end
// costs least, until it costs more than the best so far: no word from there is as near.
pub fn put_nearest(d: usize, heard: &[u8], out: &mut [u8]) -> u16
    requires { (6 ≤ d) × (d ≤ 128) × (length heard.now ≡ d + d + d) × AreBits heard.now × (d ≤ length out.old) }
    ensures { (result ≡ away d heard.now (nearest d heard.now)) × (out.new ≡ digits d (nearest d heard.now) ++ drop d out.old) }
{
    let prices = prices::prices();
    let steps = prices::steps(d, heard);
    let mut costs = [[0u16; 64]; 129];
    let open_costs = rows::fill(d, &steps, &prices, rows::end_open(), &mut costs);
    let mut left = rows::ranked(&open_costs);
    let first = usize::from(rows::least_of(&left) % 64);
    left[first] = CROSSED;
    let mut best = first_goal(d, &steps, &prices, first, out, &mut costs);
    let mut key = rows::least_of(&left);
    while key / 64 <= best {
        let goal = usize::from(key % 64);
        best = next_goal(d, &steps, &prices, goal, best, &mut left, out, &mut costs);
        key = rows::least_of(&left);
    }
    best
}

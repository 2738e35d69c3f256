// The first of some numbers at which a test fails, or at which something is found: most rules are broken at one.
ghost use Rattle.std.specs.Prelude.{◌≡◌, ℕ, Bool, ◌<◌};
ghost use Rattle.rules.specs.Steps.Walks.{FirstNot, FoundFirst};

// None where the test holds at 0 to n - 1.
pub fn first_not<F: Fn(usize) -> bool>(n: usize, holds: F) -> Option<usize>
    requires { (k : ℕ) → k < n → F.pre holds k }
    ensures { (p : ℕ → Bool) → ((k : ℕ) (r : Bool) → k < n → F.post holds k r → r ≡ p k) → FirstNot n p result }
{
    for k in 0..n {
        if !holds(k) {
            return Some(k);
        }
    }
    None
}

// What is found first, with the number at which it is.
pub fn first_found<T: Copy, F: Fn(usize) -> Option<T>>(n: usize, find: F) -> Option<(usize, T)>
    requires { (k : ℕ) → k < n → F.pre find k }
    ensures { FoundFirst (F.post find) n result }
{
    for k in 0..n {
        if let Some(found) = find(k) {
            return Some((k, found));
        }
    }
    None
}

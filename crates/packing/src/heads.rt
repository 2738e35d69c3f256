// The lines that begin a record or a table.
use crate::fault::{Expected, Fault};
use crate::line;
use crate::state::{Phase, State};
use bits::number::Refusal;
use console::parts;
use reasons::side::Side;

// The words of a record's first line, each behind its own word: tenant, profile, kb, m, x, type.
pub fn record(line: &[u8], state: State) -> Result<State, Fault> {
    if state.entries >= 64 {
        return Err(state.fault(line::next(line, 0).from, Expected::Full));
    }
    word(line, 0, b"tenant", Expected::Record, state)?;
    word(line, 2, b"profile", Expected::Profile, state)?;
    // "Every tenant is 0 in a public shelf and 1 or more in a private one"
    let (low, high) = match state.side {
        Side::Private => (1, 65535),
        Side::Public => (0, 0),
    };
    let tenant = numbered(line, 1, low, high, state)?;
    let profile = numbered(line, 3, 0, 65535, state)?;
    pair(line, tenant, profile, state)
}

// A fault where word k is not this one.
fn word(line: &[u8], k: usize, what: &[u8], expected: Expected, state: State) -> Result<(), Fault> {
    if !line::is(line, k, what) {
        return Err(state.fault(line::nth(line, k).from, expected));
    }
    Ok(())
}

// The number that word k is; a fault where it is none from `low` to `high`.
fn numbered(line: &[u8], k: usize, low: usize, high: usize, state: State) -> Result<usize, Fault> {
    let span = line::nth(line, k);
    match line::number(line, span) {
        Some(n) if low <= n && n <= high => Ok(n),
        _ => Err(state.fault(span.from, Expected::Number { low, high })),
    }
}

// "Pairs (tenant, profile number) strictly rise"
fn pair(line: &[u8], tenant: usize, profile: usize, state: State) -> Result<State, Fault> {
    if !is_above(tenant, profile, state) {
        let before = Expected::Rising {
            tenant: state.tenant,
            profile: state.profile,
        };
        return Err(state.fault(line::nth(line, 1).from, before));
    }
    let next = State {
        tenant,
        profile,
        head: state.line,
        t: 0,
        filled: 0,
        ..state
    };
    if line::is(line, 4, b"refused") {
        return octets(line, next);
    }
    shape(line, next)
}

fn is_above(tenant: usize, profile: usize, state: State) -> bool {
    if state.entries == 0 {
        return true;
    }
    if tenant == state.tenant {
        return profile > state.profile;
    }
    tenant > state.tenant
}

// kb, m, x and type, with their ranges.
fn shape(line: &[u8], state: State) -> Result<State, Fault> {
    word(line, 4, b"kb", Expected::Shape, state)?;
    let kb = numbered(line, 5, 1, 20, state)?;
    word(line, 6, b"m", Expected::M, state)?;
    let m = numbered(line, 7, 3, 12, state)?;
    word(line, 8, b"x", Expected::X, state)?;
    let x = numbered(line, 9, 0, 37, state)?;
    word(line, 10, b"type", Expected::Type, state)?;
    let kind = numbered(line, 11, 1, 2, state)?;
    ended(line, 12, state)?;
    let next = State {
        kb,
        m,
        x,
        kind,
        phase: Phase::Tables,
        ..state
    };
    fitted(line, next)
}

// A fault where there is a word k.
fn ended(line: &[u8], k: usize, state: State) -> Result<(), Fault> {
    let span = line::nth(line, k);
    if span.size > 0 {
        return Err(state.fault(span.from, Expected::LineEnd));
    }
    Ok(())
}

// "m + x at most 40", "Type 1 requires .. x 0"
fn fitted(line: &[u8], state: State) -> Result<State, Fault> {
    if state.rows() > 40 {
        let most = 40usize.saturating_sub(state.m);
        return Err(state.fault(line::nth(line, 9).from, Expected::FewerRows { most }));
    }
    if state.kind != 2 && state.x > 0 {
        return Err(state.fault(line::nth(line, 11).from, Expected::NoExtension));
    }
    Ok(state)
}

// A record that is not accepted: the number that refuses it, and how many octets it has.
fn octets(line: &[u8], state: State) -> Result<State, Fault> {
    let number = numbered(line, 5, 5, 6, state)?;
    word(line, 6, b"octets", Expected::Octets, state)?;
    let due = numbered(line, 7, 0, 65535, state)?;
    ended(line, 8, state)?;
    if !has_room(state, due) {
        return Err(state.fault(line::nth(line, 7).from, Expected::Room));
    }
    let refusal = match number {
        6 => Refusal::NoStaircase,
        _ => Refusal::Profile,
    };
    Ok(State {
        due,
        phase: Phase::Octets(refusal),
        ..state
    })
}

// "A shelf is at most 65,535 octets": whether one more record of n octets goes on it.
pub fn has_room(state: State, n: usize) -> bool {
    let heads = parts::times(8, state.entries.saturating_add(1));
    heads.saturating_add(state.used).saturating_add(n) <= 65533
}

// The line that begins a table, or the next record.
pub fn table(line: &[u8], state: State) -> Result<State, Fault> {
    let due = if state.t == 0 {
        Expected::FirstSize
    } else {
        Expected::Size
    };
    word(line, 0, b"z", due, state)?;
    if state.t >= 3 {
        return Err(state.fault(line::next(line, 0).from, Expected::Tables));
    }
    // "z (1 to 81, strictly rising)"
    let low = state.size().saturating_add(1);
    let z = numbered(line, 1, low, 81, state)?;
    ended(line, 2, state)?;
    let mut sizes = state.sizes;
    sizes[state.t] = z;
    Ok(State {
        sizes,
        t: state.t + 1,
        due: state.rows(),
        phase: Phase::Rows,
        ..state
    })
}

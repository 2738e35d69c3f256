// What a command asks of the library, as the words of the command line have it.
use bits::count::{CodedBits, Terms};
use console::argv::{read_number, read_option, read_or};
use console::errors::Errors;
use std::rt::Env;
use text::values;

// The words TENANT and PROFILE, and of a block its octets, N_L, Q_m and G, and behind --rv and --edition its redundancy version and edition.
#[derive(Clone, Copy)]
pub struct Parameters {
    pub tenant: u16,
    pub profile: u16,
    pub octets: usize,
    pub terms: Terms,
    pub g: CodedBits,
}

impl Parameters {
    // What is asked for with a record alone.
    pub fn of(tenant: u16, profile: u16) -> Parameters {
        Parameters {
            tenant,
            profile,
            octets: 0,
            terms: Terms {
                nl: 0,
                qm: 0,
                rv: 0,
                edition: 0,
            },
            g: CodedBits(0),
        }
    }
}

// The words TENANT and PROFILE, or none where one is wrong. `names` has the names of all words of the command. Here and below each word is read before any ends
// the reading, so that all that are wrong are named.
pub fn for_lookup(rt: &(impl Env + Errors), names: &[u8]) -> Option<Parameters> {
    let tenant = read_number(rt, names, b"--tenant", 65535);
    let profile = read_number(rt, names, b"--profile", 65535);
    Some(Parameters::of(values::short_of(tenant?), values::short_of(profile?)))
}

// With them LAYERS, ORDER and BITS. The octets are known once the block is read.
pub fn for_send(rt: &(impl Env + Errors), names: &[u8]) -> Option<Parameters> {
    let asked = for_lookup(rt, names);
    let layers = read_number(rt, names, b"--layers", usize::MAX);
    let order = read_number(rt, names, b"--order", usize::MAX);
    let bits = read_number(rt, names, b"--bits", usize::MAX);
    let version = read_version(rt);
    let edition = read_edition(rt);
    Some(Parameters {
        terms: Terms {
            nl: layers?,
            qm: order?,
            rv: version?,
            edition: edition?,
        },
        g: CodedBits(bits?),
        ..asked?
    })
}

// A is 8 times OCTETS and has to fit as well.
const MOST_OCTETS: usize = usize::MAX / 8;

// With them OCTETS, LAYERS and ORDER. G is known once the bits are read.
pub fn for_receive(rt: &(impl Env + Errors), names: &[u8]) -> Option<Parameters> {
    let asked = for_lookup(rt, names);
    let octets = read_number(rt, names, b"--octets", MOST_OCTETS);
    let layers = read_number(rt, names, b"--layers", usize::MAX);
    let order = read_number(rt, names, b"--order", usize::MAX);
    let version = read_version(rt);
    let edition = read_edition(rt);
    Some(Parameters {
        octets: octets?,
        terms: Terms {
            nl: layers?,
            qm: order?,
            rv: version?,
            edition: edition?,
        },
        ..asked?
    })
}

// OCTETS, LAYERS and ORDER, and the edition; one layer and two bits to a symbol where these are not given.
pub fn for_plan(rt: &(impl Env + Errors), names: &[u8]) -> Option<Parameters> {
    let octets = read_number(rt, names, b"--octets", usize::MAX);
    let layers = read_or(rt, names, b"--layers", usize::MAX, 1);
    let order = read_or(rt, names, b"--order", usize::MAX, 2);
    let edition = read_edition(rt);
    Some(Parameters {
        octets: octets?,
        terms: Terms {
            nl: layers?,
            qm: order?,
            rv: 0,
            edition: edition?,
        },
        ..Parameters::of(0, 0)
    })
}

// The redundancy version behind --rv, 0 where it is not given. The library refuses those that it does not take.
fn read_version(rt: &(impl Env + Errors)) -> Option<usize> {
    read_option(rt, b"--rv", b"N behind --rv", usize::MAX, 0)
}

// The edition behind --edition, 1 where it is not given; refused by the library likewise.
fn read_edition(rt: &(impl Env + Errors)) -> Option<usize> {
    read_option(rt, b"--edition", b"N behind --edition", usize::MAX, 1)
}

// Forms of requests: a form is a request with a name in the place of each word, which says what the
// word holds. The optional words and their defaults, which stand behind them, are lent beside it.
ghost use Rattle.std.specs.Prelude.{◌≡◌, ◌-◌, ◌/◌, ◌≤◌, IfOk, length};
ghost use Rattle.text.specs.Words.{Held};

use crate::faults::Fault;
use crate::words::Words;
use crate::{options, values, words};

// The most words that a form has, the optional ones and the request's name among them.
pub const WORDS: usize = 16;

// What the words of a request gave.
#[derive(Drop)]
pub struct Given {
    // Octets that RECORD, PACKED or PRIVATE fills of the first half of the store of records.
    pub record: usize,
    // Octets that PUBLIC or ADDED fills of the second half.
    pub public: usize,
    // Octets that BLOCK, BITS, PLACES or STREAMS fills of the store of bits.
    pub bits: usize,
    // Octets that OUTLEN lends.
    pub lent: usize,
}

// Reads the words of a request by its form. `numbers` takes what each holds, at the place that it has
// in the form: a number or, of octets, how many they are. A fault of the words as a whole comes before
// that of one of them, so it is asked for where there is a fault.
pub fn read(
    form: &[u8],
    optional: &[u8],
    request: &[u8],
    numbers: &mut [usize],
    records: &mut [u8],
    bits: &mut [u8],
    room: usize,
) -> Result<Given, Fault>
    ensures { IfOk result (λ given. Held given records.old bits.old room) }
{
    match read_words(form, optional, request, numbers, records, bits, room) {
        Ok(given) => Ok(given),
        Err(why) if is_counted(form, optional, request) => Err(why),
        Err(_) => Err(Fault::Words),
    }
}

// Whether the optional words are the form's, and the others as many as the form's.
fn is_counted(form: &[u8], optional: &[u8], request: &[u8]) -> bool {
    let n = options::start(request);
    words::count(form) == words::count(&request[..n]) && options::are_known(optional, &request[n..])
}

// Goes over the form and the line together, up to the first word that does not keep to the form.
fn read_words(
    form: &[u8],
    optional: &[u8],
    line: &[u8],
    numbers: &mut [usize],
    records: &mut [u8],
    bits: &mut [u8],
    room: usize,
) -> Result<Given, Fault>
    ensures { IfOk result (λ given. Held given records.old bits.old room) }
{
    let mut given = Given {
        record: 0,
        public: 0,
        bits: 0,
        lent: 0,
    };
    let mut words = Words::<false>::behind_first(line);
    let mut k = 1;
    for name in Words::<true>::behind_first(form) {
        let word = words.next().unwrap_or(b"");
        let value = read_word(name, word, records, bits, room, &mut given)?;
        if k < numbers.len() {
            numbers[k] = value;
            k += 1;
        }
    }
    let kept = k.min(numbers.len());
    options::read(optional, words.rest(), &mut numbers[kept..])?;
    Ok(given)
}

// What a word of a form holds.
#[derive(Drop)]
enum Kind {
    // Octets of the first half of the store of records.
    First,
    // Octets of its second half.
    Second,
    // Octets of the store of bits.
    Block,
    Bits,
    // A number.
    Other,
}

// By the name of the word; each other name is that of a number.
fn kind_of(name: &[u8]) -> Kind {
    match name {
        b"RECORD" | b"PACKED" | b"PRIVATE" => Kind::First,
        b"PUBLIC" | b"ADDED" => Kind::Second,
        b"BLOCK" => Kind::Block,
        b"BITS" | b"PLACES" | b"STREAMS" => Kind::Bits,
        _ => Kind::Other,
    }
}

fn read_word(
    name: &[u8],
    word: &[u8],
    records: &mut [u8],
    bits: &mut [u8],
    room: usize,
    given: &mut Given,
) -> Result<usize, Fault>
    requires { Held given.old records.old bits.old room }
    ensures { Held given.new records.old bits.old room }
{
    if word.is_empty() {
        return Err(Fault::Words);
    }
    match kind_of(name) {
        Kind::First => {
            given.record = first_half(word, records)?;
            Ok(given.record)
        }
        Kind::Second => {
            given.public = second_half(word, records)?;
            Ok(given.public)
        }
        Kind::Block => {
            given.bits = values::block(word, bits)?;
            Ok(given.bits)
        }
        Kind::Bits => {
            given.bits = values::bits(word, bits)?;
            Ok(given.bits)
        }
        Kind::Other => read_number(name, word, room, given),
    }
}

fn first_half(word: &[u8], records: &mut [u8]) -> Result<usize, Fault>
    ensures { IfOk result (λ n. n ≤ length records.old / 2) }
{
    let half = records.len() / 2;
    values::octets(word, &mut records[..half])
}

fn second_half(word: &[u8], records: &mut [u8]) -> Result<usize, Fault>
    ensures { IfOk result (λ n. n ≤ length records.old - length records.old / 2) }
{
    let half = records.len() / 2;
    values::octets(word, &mut records[half..])
}

// The names of numbers that have a range or another form; each other number has 64 bits.
fn read_number(name: &[u8], word: &[u8], room: usize, given: &mut Given) -> Result<usize, Fault>
    requires { given.old.lent ≤ room }
    ensures { (given.new.record ≡ given.old.record) × (given.new.public ≡ given.old.public) × (given.new.bits ≡ given.old.bits) × (given.new.lent ≤ room) }
{
    match name {
        b"OUTLEN" => {
            given.lent = values::outlen(word, room)?;
            Ok(given.lent)
        }
        b"TENANT" | b"PROFILE" => values::short(word),
        b"MASK" => values::mask(word),
        _ => values::number(word),
    }
}

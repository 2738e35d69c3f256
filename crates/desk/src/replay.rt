// The command `replay`: requests are read from standard input and answered on standard output.
use console::argv::Words;
use console::host::Host;
use console::{argv, help};

const HELP: &[u8] = b"usage: kuambyte replay < requests > answers

Reads requests, one to a line, and writes an answer to each. Requests, and what is answered behind the number:

  crc WIDTH BITS                     the checksum of the bits
  crc24b BITS                        the checksum that edition 2 puts behind a code block's own bits
  crcoct WIDTH PACKED                the checksum of packed octets
  crcm WIDTH MASK BITS               the checksum of the bits under a mask
  crcappend WIDTH MASK BITS OUTLEN   the bits, with that checksum behind them
  crctest WIDTH MASK BITS            1 if the bits end in such a checksum of those before, else 0
  profile RECORD                     nothing: the number says whether the record is a profile
  plan RECORD OCTETS                 how a block of so many octets is cut: B, C, K, z, and L, the bits of a code block's checksum
  encode RECORD Z PLACES OUTLEN      the places of a code block, with its parity bits
  check RECORD Z BITS                1 if the bits are a word that checks, else 0
  sums RECORD Z BITS OUTLEN          what each row of the spread-out matrix sums to over the bits, modulo two
  rate E PLACES OUTLEN               the bits that are sent of a coded block
  send RECORD BLOCK NL QM G OUTLEN   the bits that are sent of a block
  recv RECORD A NL QM BITS OUTLEN    the block that was sent as these bits
  lookup SHELVES TENANT PROFILE      which shelf has the record, where it starts and its length
  hsend SHELVES TENANT PROFILE ..    as send, with the record that the tenant is given
  hrecv SHELVES TENANT PROFILE ..    as recv, with the record that the tenant is given
  hcheck SHELVES TENANT PROFILE ..   as check, with the record that the tenant is given
  put PRIVATE TENANT PROFILE RECORD OUTLEN   the private shelf with this record for the tenant and the profile number
  remove PRIVATE TENANT PROFILE OUTLEN       the private shelf without the record of the tenant and the profile number
  tbenc BITS OUTLEN                  the three streams that a control word is coded to, one after the other
  tbrm D STREAMS E OUTLEN            the bits that are sent of three streams of D bits
  tbsend BITS E OUTLEN               the bits that are sent of a control word
  tbback D BITS OUTLEN               the three streams of D bits that were sent as these bits
  near D STREAMS OUTLEN              the control word whose streams differ from these in the fewest places, and in how many

SHELVES are two words, PRIVATE and PUBLIC; behind PROFILE the words of send, recv and check behind RECORD.
check, recv, hrecv and hcheck may end in by=quick or by=plain: which checker is asked, quick where nothing is said.
send, recv, hsend, hrecv and rate may end in rv=N, the redundancy version, and rate in type=N: 0 and 1 where nothing is said.
plan, send, recv, hsend and hrecv may end in ed=N, the edition: 1 where nothing is said.

docs/REQUESTS.md describes requests, their words and the answers.
";

pub fn run(rt: &impl Host, words: Words) -> i32 {
    if words.help || !argv::fits(rt, b"", 0, b"") {
        return help::say(rt, words.help, HELP);
    }
    stream::replay(rt)
}

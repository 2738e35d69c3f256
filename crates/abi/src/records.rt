// Profile records: judged, asked which rule they break, and how a transport block is cut with one.
ghost use Rattle.std.specs.Prelude.{◌≡◌};
ghost use Rattle.profile.specs.Promises.{judged};
ghost use Rattle.rules.specs.Promises.{RecordRule};
ghost use Rattle.cutting.specs.Promises.{planned};
ghost use Rattle.advice.specs.Promises.{LeastRoom};

use advice::Advised;
use bits::count::Terms;
use cutting::Planned;
use rules::Wrong;

pub fn kuambyte_judge(profile: &[u8]) -> u32
    ensures { result ≡ judged profile.now }
{
    match profile::judge(profile) {
        Ok(()) => 0,
        Err(refusal) => refusal.number(),
    }
}

pub fn kuambyte_rule_of_record(octets: &[u8]) -> Wrong
    ensures { RecordRule octets.now result }
{
    Wrong::from(rules::of_record(octets))
}

pub fn kuambyte_plan_block(profile: &[u8], edition: usize, octets: usize) -> Planned
    ensures { result ≡ planned profile.now edition octets }
{
    Planned::from(cutting::plan_block(profile, edition, octets))
}

pub fn kuambyte_least_bits(profile: &[u8], octets: usize, terms: Terms) -> Advised
    ensures { LeastRoom profile.now octets terms result }
{
    Advised::from(advice::least_bits(profile, octets, terms))
}

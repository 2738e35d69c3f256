// Terms that can be counted with, and from coded bits to symbol places and back, through N_L times Q_m only.
ghost use Rattle.std.specs.Prelude.{◌≡◌, ◌||◌, ◌≤◌, eqb};
ghost use Rattle.bits.specs.Counts.{usable, place_bits, symbol_places_of, symbol_places_for, coded_bits_of};
ghost use Rattle.bits.specs.Steps.Counting.{Usable};

use crate::count::{CodedBits, SymbolPlaces, Terms};

fn is_order(qm: usize) -> bool
    ensures { result ≡ eqb qm 2 || eqb qm 4 || eqb qm 6 }
{
    matches!(qm, 2 | 4 | 6)
}

// Whether N_L and Q_m are ones of step 5.
#[tactic(auto, unfolding(crate::specs::Counts::usable))]
pub fn is_usable(terms: Terms) -> bool
    ensures { result ≡ usable terms }
{
    crate::inner::is_within(1, 4, terms.nl) && is_order(terms.qm)
}

// The bits of one symbol place on every layer.
pub fn place_bits(terms: Terms) -> usize
    requires { Usable terms }
    ensures { result ≡ place_bits terms }
{
    terms.nl * terms.qm
}

// The symbol places that these bits fill; what is left over is dropped.
pub fn symbol_places(bits: CodedBits, terms: Terms) -> SymbolPlaces
    requires { Usable terms }
    ensures { result ≡ symbol_places_of terms bits }
{
    SymbolPlaces(bits.0 / place_bits(terms))
}

// The fewest symbol places that carry these bits.
pub fn symbol_places_for(bits: CodedBits, terms: Terms) -> SymbolPlaces
    requires { Usable terms × (bits.0 ≤ 65536) }
    ensures { result ≡ symbol_places_for terms bits }
{
    let each = place_bits(terms);
    SymbolPlaces((bits.0 + (each - 1)) / each)
}

// The bits that these symbol places carry.
pub fn coded_bits(places: SymbolPlaces, terms: Terms) -> CodedBits
    requires { Usable terms × (places.0 ≤ 65536) }
    ensures { result ≡ coded_bits_of terms places }
{
    CodedBits(place_bits(terms) * places.0)
}

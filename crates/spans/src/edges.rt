// The edges of a span, by the 17-bit posits whose numbers they are.
ghost use Rattle.std.specs.Prelude.{◌≡◌, ◌+◌, ◌*◌};
ghost use Rattle.spans.specs.Spans.{at, tied, edge_place, edge_bits_of};

// How a span stands at an edge: there is none, and the span goes on without end; or the span goes up to it, without that number
// or with it.
#[derive(Clone, Copy)]
pub enum Edge {
    Missing,
    Excluded,
    Included,
}

impl Edge {
    // How the span of p stands at its dividing numbers: a tie goes to the even pattern.
    fn tied(p: u16) -> Edge
        ensures { result ≡ tied p }
    {
        if p % 2 == 0 {
            Edge::Included
        } else {
            Edge::Excluded
        }
    }

    // 1 for an edge that exists, and 2 more for one that is included.
    fn bits(self) -> u8
        ensures { result ≡ edge_bits_of self }
    {
        match self {
            Edge::Missing => 0,
            Edge::Excluded => 1,
            Edge::Included => 3,
        }
    }
}

// An edge by the 17-bit posit whose number it is; 0 where it is missing.
#[derive(Clone, Copy)]
pub struct Place {
    pub posit: u32,
    pub edge: Edge,
}

impl Place {
    fn at(posit: u32, edge: Edge) -> Place
        ensures { result ≡ at posit edge }
    {
        Place { posit, edge }
    }
}

// The edge of p on one side: at `next`, the 17-bit posit next to p followed by a 0. But the span of zero is zero alone, that of
// the pattern `inmost` goes up to zero without it, and that of `outmost` has no edge on this side.
pub fn place_of(p: u16, inmost: u16, outmost: u16, next: u32) -> Place
    ensures { result ≡ edge_place inmost outmost next p }
{
    if p == 0 {
        return Place::at(0, Edge::Included);
    }
    if p == inmost {
        return Place::at(0, Edge::Excluded);
    }
    if p == outmost {
        return Place::at(0, Edge::Missing);
    }
    Place::at(next, Edge::tied(p))
}

// How a span stands at its edges, as the C entry says it: 1 the lower edge exists, 2 it is included, 4 the upper edge exists,
// 8 it is included.
pub fn edge_bits(start: Edge, end: Edge) -> u8
    ensures { result ≡ edge_bits_of start + 4 * edge_bits_of end }
{
    start.bits() + 4 * end.bits()
}

// The calls, each by the first byte of its word.
ghost use Rattle.std.specs.Prelude.{◌≡◌};
ghost use Rattle.calls.specs.Call.{Decodes, gives_row_of};

// A call by the first byte of its word.
#[derive(Clone, Copy, Debug, PartialEq, Eq)]
pub enum Call {
    Sum,
    Difference,
    BinomialProduct,
    SubsetProduct,
    UnionProduct,
    XorProduct,
    Exponential,
    Composition,
    Logarithm,
    Inverse,
    Projection,
}

// A byte that begins the word of no call.
#[derive(Clone, Copy, Debug, PartialEq, Eq)]
pub struct UnknownCall;

impl TryFrom<u8> for Call {
    type Error = UnknownCall;

    ghost try_from_gives = { Decodes };

    fn try_from(initial: u8) -> Result<Self, UnknownCall> {
        match initial {
            b'+' => Ok(Call::Sum),
            b'-' => Ok(Call::Difference),
            b'b' => Ok(Call::BinomialProduct),
            b's' => Ok(Call::SubsetProduct),
            b'u' => Ok(Call::UnionProduct),
            b'x' => Ok(Call::XorProduct),
            b'e' => Ok(Call::Exponential),
            b'c' => Ok(Call::Composition),
            b'l' => Ok(Call::Logarithm),
            b'i' => Ok(Call::Inverse),
            b'p' => Ok(Call::Projection),
            _ => Err(UnknownCall),
        }
    }
}

// What a call answers: 0 or the number of its refusal; and the ceiling, of the subset product alone, 0 where that is refused.
#[derive(Clone, Copy, Debug, PartialEq, Eq)]
pub struct Answer {
    pub call: Call,
    pub number: u32,
    pub ceiling: Option<u32>,
}

impl Call {
    // Whether the result is a row, and not a table.
    pub fn gives_row(self) -> bool
        ensures { result ≡ gives_row_of self }
    {
        matches!(self, Call::BinomialProduct | Call::Projection)
    }

    // Sum and difference read two tables, binomial product two rows, composition a table and a row; the second list of a call
    // of one table is not read.
    pub fn run(
        self,
        n: u32,
        m: u32,
        a: &[u32],
        b: &[u32],
        res: &mut [u32],
        pad: &mut [u32],
    ) -> Answer
        ensures { result.call ≡ self }
    {
        let answer = match self {
            Call::Sum => entrywise::sum(n, m, a, b, res),
            Call::Difference => entrywise::difference(n, m, a, b, res),
            Call::BinomialProduct => entrywise::binomial_product(n, m, a, b, res),
            Call::SubsetProduct => return subset_product(n, m, a, b, res, pad),
            Call::UnionProduct => transforms::union_product(n, m, a, b, res, pad),
            Call::XorProduct => transforms::xor_product(n, m, a, b, res, pad),
            Call::Exponential => series_calls::exponential(n, m, a, res, pad),
            Call::Composition => series_calls::composition(n, m, a, b, res, pad),
            Call::Logarithm => series_calls::logarithm(n, m, a, res, pad),
            Call::Inverse => series_calls::inverse(n, m, a, res, pad),
            Call::Projection => projection_calls::projection(n, m, a, b, res, pad),
        };
        Answer {
            call: self,
            number: refusals::number(answer),
            ceiling: None,
        }
    }
}

fn subset_product(n: u32, m: u32, a: &[u32], b: &[u32], res: &mut [u32], pad: &mut [u32]) -> Answer
    ensures { result.call ≡ Call.SubsetProduct }
{
    let (number, ceiling) = match subset_product::subset_product(n, m, a, b, res, pad) {
        Ok(ceiling) => (0, ceiling),
        Err(refusal) => (u32::from(refusal), 0),
    };
    Answer {
        call: Call::SubsetProduct,
        number,
        ceiling: Some(ceiling),
    }
}

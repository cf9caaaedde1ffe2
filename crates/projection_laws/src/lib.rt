// The law of the projection: three calls under one n and m, and what holds of their outcomes whatever the lent memory held.
#![tactic(auto)]

ghost use Rattle.refusals.specs.Words.{word_of};
ghost use Rattle.projection_laws.specs.Law.{Lawful};

use refusals::Refusal;

// What each call answered.
#[derive(Clone, Copy)]
pub struct Answers {
    pub projection: Result<(), Refusal>,
    pub composition: Result<(), Refusal>,
    pub product: Result<u32, Refusal>,
}

// Makes the calls: the projection of a and b, the composition of b with f, and the subset product of a and that. Each has a result
// and a pad of its own, of any length and contents.
pub fn projection_law(
    n: u32,
    m: u32,
    a: &[u32],
    b: &[u32],
    f: &[u32],
    projection: &mut [u32],
    composition: &mut [u32],
    product: &mut [u32],
    projection_pad: &mut [u32],
    composition_pad: &mut [u32],
    product_pad: &mut [u32],
) -> Answers
    ensures { Lawful n m a.now b.now f.now (record {
      projection = record { lent = projection.old; pad = projection_pad.old; number = word_of result.projection; result = projection.new; pad_left = projection_pad.new };
      composition = record {
        lent = composition.old;
        pad = composition_pad.old;
        number = word_of result.composition;
        result = composition.new;
        pad_left = composition_pad.new;
      };
      product = record { lent = product.old; pad = product_pad.old; number = word_of result.product; result = product.new; pad_left = product_pad.new };
    }) }
{
    let projection_answer = projection_calls::projection(n, m, a, b, projection, projection_pad);
    let composition_answer = composition_calls::composition(
        n,
        m,
        b,
        f,
        composition,
        composition_pad,
    );
    let product_answer = subset_product::subset_product(n, m, a, composition, product, product_pad);
    Answers {
        projection: projection_answer,
        composition: composition_answer,
        product: product_answer,
    }
}

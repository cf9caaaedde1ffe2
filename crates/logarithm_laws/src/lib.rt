// Logarithms add up, and the exponential of 0 - A is the inverse of A's: nine calls under one n and m, and what holds of their
// outcomes whatever the lent memory held.
#![tactic(auto)]

ghost use Rattle.std.specs.Prelude.{[]};
ghost use Rattle.refusals.specs.Words.{word_of};
ghost use Rattle.logarithm_laws.specs.Law.{Lawful};

use refusals::Refusal;

// What each call answered.
#[derive(Clone, Copy)]
pub struct Answers {
    pub product: Result<u32, Refusal>,
    pub log_product: Result<(), Refusal>,
    pub log_e: Result<(), Refusal>,
    pub log_f: Result<(), Refusal>,
    pub sum: Result<(), Refusal>,
    pub exp_a: Result<(), Refusal>,
    pub inverse: Result<(), Refusal>,
    pub difference: Result<(), Refusal>,
    pub exp_difference: Result<(), Refusal>,
}

// Makes the calls. Each has a result of its own and, where it takes one, a pad of its own, of any length and contents. It
// reads the lent tables, or what stands in the result of an earlier call. The second law is for a z whose entries are all 0; the
// first does not look at z.
pub fn logarithm_laws(
    n: u32,
    m: u32,
    e: &[u32],
    f: &[u32],
    a: &[u32],
    z: &[u32],
    product: &mut [u32],
    log_product: &mut [u32],
    log_e: &mut [u32],
    log_f: &mut [u32],
    sum: &mut [u32],
    exp_a: &mut [u32],
    inverse: &mut [u32],
    difference: &mut [u32],
    exp_difference: &mut [u32],
    product_pad: &mut [u32],
    log_product_pad: &mut [u32],
    log_e_pad: &mut [u32],
    log_f_pad: &mut [u32],
    exp_a_pad: &mut [u32],
    inverse_pad: &mut [u32],
    exp_difference_pad: &mut [u32],
) -> Answers
    ensures { Lawful n m e.now f.now a.now z.now (record {
      product = record { lent = product.old; pad = product_pad.old; number = word_of result.product; result = product.new; pad_left = product_pad.new };
      log_product = record {
        lent = log_product.old;
        pad = log_product_pad.old;
        number = word_of result.log_product;
        result = log_product.new;
        pad_left = log_product_pad.new;
      };
      log_E = record { lent = log_e.old; pad = log_e_pad.old; number = word_of result.log_e; result = log_e.new; pad_left = log_e_pad.new };
      log_F = record { lent = log_f.old; pad = log_f_pad.old; number = word_of result.log_f; result = log_f.new; pad_left = log_f_pad.new };
      sum = record { lent = sum.old; pad = []; number = word_of result.sum; result = sum.new; pad_left = [] };
      exp_A = record { lent = exp_a.old; pad = exp_a_pad.old; number = word_of result.exp_a; result = exp_a.new; pad_left = exp_a_pad.new };
      inverse = record { lent = inverse.old; pad = inverse_pad.old; number = word_of result.inverse; result = inverse.new; pad_left = inverse_pad.new };
      difference = record { lent = difference.old; pad = []; number = word_of result.difference; result = difference.new; pad_left = [] };
      exp_difference = record {
        lent = exp_difference.old;
        pad = exp_difference_pad.old;
        number = word_of result.exp_difference;
        result = exp_difference.new;
        pad_left = exp_difference_pad.new;
      };
    }) }
{
    let product_answer = subset_product::subset_product(n, m, e, f, product, product_pad);
    let log_product_answer = series_calls::logarithm(n, m, product, log_product, log_product_pad);
    let log_e_answer = series_calls::logarithm(n, m, e, log_e, log_e_pad);
    let log_f_answer = series_calls::logarithm(n, m, f, log_f, log_f_pad);
    let sum_answer = entrywise::sum(n, m, log_e, log_f, sum);
    let exp_a_answer = series_calls::exponential(n, m, a, exp_a, exp_a_pad);
    let inverse_answer = series_calls::inverse(n, m, exp_a, inverse, inverse_pad);
    let difference_answer = entrywise::difference(n, m, z, a, difference);
    let exp_difference_answer = series_calls::exponential(
        n,
        m,
        difference,
        exp_difference,
        exp_difference_pad,
    );
    Answers {
        product: product_answer,
        log_product: log_product_answer,
        log_e: log_e_answer,
        log_f: log_f_answer,
        sum: sum_answer,
        exp_a: exp_a_answer,
        inverse: inverse_answer,
        difference: difference_answer,
        exp_difference: exp_difference_answer,
    }
}

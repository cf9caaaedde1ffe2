// Demand 3: thirteen calls under one n and m, and what holds of their outcomes whatever the lent memory held.
#![tactic(auto)]

ghost use Rattle.std.specs.Prelude.{[]};
ghost use Rattle.refusals.specs.Words.{word_of};
ghost use Rattle.laws_theory.specs.Demand.{Laws};

use refusals::Refusal;

// What each call answered.
#[derive(Clone, Copy)]
pub struct Answers {
    pub sum: Result<(), Refusal>,
    pub exp_sum: Result<(), Refusal>,
    pub exp_a: Result<(), Refusal>,
    pub exp_b: Result<(), Refusal>,
    pub product: Result<u32, Refusal>,
    pub log_exp: Result<(), Refusal>,
    pub log_e: Result<(), Refusal>,
    pub exp_log: Result<(), Refusal>,
    pub binomial: Result<(), Refusal>,
    pub comp_binomial: Result<(), Refusal>,
    pub comp_f: Result<(), Refusal>,
    pub comp_g: Result<(), Refusal>,
    pub comp_product: Result<u32, Refusal>,
}

// Makes the calls. Each has a result of its own and, where it takes one, a pad of its own, of any length and contents. It
// reads the lent tables and rows, or what stands in the result of an earlier call.
pub fn laws(
    n: u32,
    m: u32,
    a: &[u32],
    b: &[u32],
    e: &[u32],
    f: &[u32],
    g: &[u32],
    sum: &mut [u32],
    exp_sum: &mut [u32],
    exp_a: &mut [u32],
    exp_b: &mut [u32],
    product: &mut [u32],
    log_exp: &mut [u32],
    log_e: &mut [u32],
    exp_log: &mut [u32],
    binomial: &mut [u32],
    comp_binomial: &mut [u32],
    comp_f: &mut [u32],
    comp_g: &mut [u32],
    comp_product: &mut [u32],
    exp_sum_pad: &mut [u32],
    exp_a_pad: &mut [u32],
    exp_b_pad: &mut [u32],
    product_pad: &mut [u32],
    log_exp_pad: &mut [u32],
    log_e_pad: &mut [u32],
    exp_log_pad: &mut [u32],
    comp_binomial_pad: &mut [u32],
    comp_f_pad: &mut [u32],
    comp_g_pad: &mut [u32],
    comp_product_pad: &mut [u32],
) -> Answers
    ensures { Laws n m a.now b.now e.now f.now g.now (record {
      sum = record { lent = sum.old; pad = []; number = word_of result.sum; result = sum.new; pad_left = [] };
      exp_sum = record { lent = exp_sum.old; pad = exp_sum_pad.old; number = word_of result.exp_sum; result = exp_sum.new; pad_left = exp_sum_pad.new };
      exp_A = record { lent = exp_a.old; pad = exp_a_pad.old; number = word_of result.exp_a; result = exp_a.new; pad_left = exp_a_pad.new };
      exp_B = record { lent = exp_b.old; pad = exp_b_pad.old; number = word_of result.exp_b; result = exp_b.new; pad_left = exp_b_pad.new };
      product = record { lent = product.old; pad = product_pad.old; number = word_of result.product; result = product.new; pad_left = product_pad.new };
      log_exp = record { lent = log_exp.old; pad = log_exp_pad.old; number = word_of result.log_exp; result = log_exp.new; pad_left = log_exp_pad.new };
      log_E = record { lent = log_e.old; pad = log_e_pad.old; number = word_of result.log_e; result = log_e.new; pad_left = log_e_pad.new };
      exp_log = record { lent = exp_log.old; pad = exp_log_pad.old; number = word_of result.exp_log; result = exp_log.new; pad_left = exp_log_pad.new };
      binomial = record { lent = binomial.old; pad = []; number = word_of result.binomial; result = binomial.new; pad_left = [] };
      comp_binomial = record {
        lent = comp_binomial.old;
        pad = comp_binomial_pad.old;
        number = word_of result.comp_binomial;
        result = comp_binomial.new;
        pad_left = comp_binomial_pad.new;
      };
      comp_f = record { lent = comp_f.old; pad = comp_f_pad.old; number = word_of result.comp_f; result = comp_f.new; pad_left = comp_f_pad.new };
      comp_g = record { lent = comp_g.old; pad = comp_g_pad.old; number = word_of result.comp_g; result = comp_g.new; pad_left = comp_g_pad.new };
      comp_product = record {
        lent = comp_product.old;
        pad = comp_product_pad.old;
        number = word_of result.comp_product;
        result = comp_product.new;
        pad_left = comp_product_pad.new;
      };
    }) }
{
    let sum_answer = entrywise::sum(n, m, a, b, sum);
    let exp_sum_answer = series_calls::exponential(n, m, sum, exp_sum, exp_sum_pad);
    let exp_a_answer = series_calls::exponential(n, m, a, exp_a, exp_a_pad);
    let exp_b_answer = series_calls::exponential(n, m, b, exp_b, exp_b_pad);
    let product_answer = subset_product::subset_product(n, m, exp_a, exp_b, product, product_pad);
    let log_exp_answer = series_calls::logarithm(n, m, exp_a, log_exp, log_exp_pad);
    let log_e_answer = series_calls::logarithm(n, m, e, log_e, log_e_pad);
    let exp_log_answer = series_calls::exponential(n, m, log_e, exp_log, exp_log_pad);
    let binomial_answer = entrywise::binomial_product(n, m, f, g, binomial);
    let comp_binomial_answer = series_calls::composition(
        n,
        m,
        a,
        binomial,
        comp_binomial,
        comp_binomial_pad,
    );
    let comp_f_answer = series_calls::composition(n, m, a, f, comp_f, comp_f_pad);
    let comp_g_answer = series_calls::composition(n, m, a, g, comp_g, comp_g_pad);
    let comp_product_answer = subset_product::subset_product(
        n,
        m,
        comp_f,
        comp_g,
        comp_product,
        comp_product_pad,
    );
    Answers {
        sum: sum_answer,
        exp_sum: exp_sum_answer,
        exp_a: exp_a_answer,
        exp_b: exp_b_answer,
        product: product_answer,
        log_exp: log_exp_answer,
        log_e: log_e_answer,
        exp_log: exp_log_answer,
        binomial: binomial_answer,
        comp_binomial: comp_binomial_answer,
        comp_f: comp_f_answer,
        comp_g: comp_g_answer,
        comp_product: comp_product_answer,
    }
}

// Sizes and Describe: n and k of a listed code, and its generator.

ghost use Rattle.codes.specs.Work.{Checked};
ghost use Rattle.codec.specs.Sizes.{GivesSizes};
ghost use Rattle.codec.specs.Describe.{Describes, describe_checks};

use codes::Code;
use sheet::Refusal;

// n and k of a listed code.
#[derive(Clone, Copy)]
pub struct Described {
    pub n: usize,
    pub k: usize,
}

pub fn sizes(m: usize, t: usize) -> Result<Described, Refusal>
    ensures { GivesSizes m t result }
{
    let Code { n, k, .. } = codes::look_up(m, t)?;
    Ok(Described { n, k })
}

pub fn describe(m: usize, t: usize, generator: &mut [u8]) -> Result<Described, Refusal>
    ensures { Describes m t generator.old result generator.new }
{
    let code = checks(m, t, generator)?;
    generator::fill_generator(code.m, code.row, generator);
    Ok(Described {
        n: code.n,
        k: code.k,
    })
}

fn checks(m: usize, t: usize, generator: &[u8]) -> Result<Code, Refusal>
    ensures { Checked m t (describe_checks generator.now) result }
{
    let code = codes::look_up(m, t)?;
    if generator.len() != code.n - code.k + 1 {
        return Err(Refusal::OutputLength);
    }
    Ok(code)
}

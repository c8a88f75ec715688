ghost use Rattle.std.specs.Prelude.{◌≡◌, IfOk, IfErr};
ghost use Rattle.mb_isa.specs.Costs.{IsCosts};
ghost use Rattle.pc_rules.specs.Judging.{IsWithin};
ghost use Rattle.pretc_run.specs.declared.endings.Ending.TheVariants as end;
ghost use Rattle.pretc_top.specs.Certified.{IsCertified};

use mb_isa::{Class, Costs};
use pc_compile::compile;
use pc_grammar::Typed;
use pretc_run::Ending;
use pt_image::Image;
use std::alloc::Global;
use tk_analyse::analyse;
use tk_cert::Cert;

/// The image of a program, and its certificate.
#[derive(Drop)]
pub struct Certified {
    pub image: Image,
    pub cert: Cert,
}

// A table of costs has its 22 numbers.
fn priced(costs: &Costs)
    ensures { IsCosts costs.now }
{
    costs.cost(Class::Tick);
}

/// Compiles a program that keeps all rules, and analyses it under these costs.
pub fn certify(alloc: Global, typed: &Typed, costs: &Costs) -> Result<Certified, Ending>
    requires within { IsWithin typed.now }
    ensures certified { IfOk result (λ c. IsCertified typed.now costs.now c.image c.cert) }
    ensures failed { IfErr result (λ e. e ≡ end.WantOfMemory) }
{
    priced(costs);
    let compiled = match compile(alloc, typed) {
        Ok(compiled) => compiled,
        Err(_) => return Err(Ending::WantOfMemory),
    };
    match analyse(alloc, &compiled.image, &compiled.program, costs) {
        Ok(cert) => Ok(Certified {
            image: compiled.image,
            cert,
        }),
        Err(_) => Err(Ending::WantOfMemory),
    }
}

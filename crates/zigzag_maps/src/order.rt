ghost use Rattle.std.specs.Prelude.{◌≡◌, ◌∷◌, IfSome};
ghost use Rattle.diagram_terms.specs.Order.{steps_from, steps_on, LeadsIn, regs_before, regs_after, sings_before, sings_after};

use diagram_terms::Step;

/// The step after this one, in the order in which a diagram of length `n` is visited.
#[tactic(auto, using(diagram_terms::proofs::NextSteps::order))]
pub fn next_step(n: usize, step: Step) -> Option<Step>
    requires { LeadsIn n step }
    ensures next { steps_from n step ≡ step ∷ steps_on n result }
    ensures leads { IfSome result (LeadsIn n) }
    ensures regs { regs_before n result ≡ regs_after n step }
    ensures sings { sings_before n result ≡ sings_after n step }
{
    match step {
        Step::R(j) => {
            if j < n {
                Some(Step::R(j + 1))
            } else if n > 0 {
                Some(Step::S(0))
            } else {
                None
            }
        }
        Step::S(i) => {
            if i + 1 < n {
                Some(Step::S(i + 1))
            } else {
                Some(Step::F(0))
            }
        }
        Step::F(k) => Some(Step::B(k)),
        Step::B(k) => {
            if k + 1 < n {
                Some(Step::F(k + 1))
            } else {
                None
            }
        }
        _ => None,
    }
}

//! A law about the model of `Words`. The law is the contract of a function that only calls another
//! law.

ghost use Rattle.club_reference.specs.Laws.{ModelsWords};

use pass_caveats::laws::reads_what_is_understood;

/// A value of `Words` has exactly one model, and `words_model` computes this model.
#[tactic(auto, using(crate::proofs::StepLemmas::models_words))]
pub fn models_words()
    ensures { ModelsWords }
{
    reads_what_is_understood();
}

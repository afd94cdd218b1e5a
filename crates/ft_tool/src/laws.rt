//! Laws of the tool's definitions, each stated as the contract of a function that does nothing.
ghost use Rattle.std.specs.Prelude.{◌≡◌, ℕ, List, [], None, Some};
ghost use Rattle.ft_isa.specs.declared.plan.Wild.{Wild};
ghost use Rattle.ft_types.specs.declared.object.Object.{Object};
ghost use Rattle.ft_types.specs.Spellable.{IsSpellable};
ghost use Rattle.ft_typing.specs.Accepted.{IsAccepted};
ghost use Rattle.ft_semantics.specs.Run.{outputs_after, status_after};
ghost use Rattle.ft_edge.specs.Loads.{Files};
ghost use Rattle.ft_command.specs.Options.{Word};
ghost use Rattle.ft_command.specs.Commands.{Request, Asks};
ghost use Rattle.ft_tool.specs.Replies.{Answer};
ghost use Rattle.ft_tool.specs.Answers.{IsAnswer};

use ft_asm::answers_are_one;
use ft_campaign::{one_text_has_one_list, verdicts_are_one};
use ft_command::words_ask_for_one_thing;
use ft_exchange::schedules_are_equal;
use ft_format::rules_are_exact;
use ft_link_map::lines_are_one;
use ft_scope::one_text_has_one_outcome;
use ft_script::commands_are_one;

/// If the files and the script are known, the words have at most one answer, pieces and status included.
pub fn words_have_one_answer()
    ensures { (words : List Word) (request : Request) (files : Files) (script : List ℕ) (a b : Answer) → Asks words request
        → IsAnswer words (Some files) (Some script) a → IsAnswer words (Some files) (Some script) b → a ≡ b }
{
    words_ask_for_one_thing();
    rules_are_exact();
    answers_are_one();
    one_text_has_one_outcome();
    one_text_has_one_list();
    verdicts_are_one();
    commands_are_one();
    lines_are_one();
    schedules_are_equal();
}

/// Without a strike, an accepted object has the same outputs and the same status whatever the answers to wild loads. So
/// a run with a strike, whatever answers its plan has, can be compared with the run without a strike and without
/// answers. For a compiled object, that run commits what its source means.
pub fn answers_matter_after_a_strike_alone()
    ensures outputs { (o : Object) (w : List Wild) (n : ℕ) → IsSpellable o → IsAccepted o → outputs_after o None w n ≡ outputs_after o None [] n }
    ensures status { (o : Object) (w : List Wild) (n : ℕ) → IsSpellable o → IsAccepted o → status_after o None w n ≡ status_after o None [] n }
{}

//! What serving several links at once means, beside serving one after another.

ghost use Rattle.std.specs.Prelude.{ℕ, Bool, List, IsTrue};
ghost use Rattle.mc_outside.specs.LinkView.{LinkView};
ghost use Rattle.mc_requests.specs.declared.limits.Limits.{Limits};
ghost use Rattle.millicent_http.specs.declared.clock.Clock.{Clock};
ghost use Rattle.millicent_http.specs.Steps.{Did};
ghost use Rattle.millicent_http.specs.Courses.{HadLinks};
ghost use Rattle.link_turns.specs.Orders.{InOrder};
ghost use Rattle.link_rounds.specs.Rounds.{InRounds, steps_of};
ghost use Rattle.link_rounds.specs.Together.{Tagged, StepAt, AllOf, at_slot, did_of};
ghost use Rattle.house_core.specs.Session.{State, Step};
ghost use Rattle.house_together.specs.Replying.{history_of};

/// A crash pair that is in order by rounds is in order by their steps, as where links are served one after another.
pub fn rounds_are_in_order()
    ensures { (tells : Bool) (s : State) (before : List ℕ) (rounds : List (List (Did State))) (image sent : List ℕ)
        → InRounds history_of (IsTrue tells) s before rounds image sent
        → InOrder history_of (IsTrue tells) s before (steps_of rounds) image sent }
{}

/// Where all steps are of one slot, that slot was served as links are that come one after another.
pub fn one_slot_is_links_one_after_another()
    ensures { (limits : Limits) (clock : Clock) (s : State) (p : ℕ) (all : List (Tagged State)) (n : ℕ) (before after : LinkView)
        → AllOf p all → HadLinks (StepAt (Step limits) s all) clock n (at_slot p 0 all) 0 before after
        → HadLinks (Step limits) clock n (did_of all) s before after }
{}

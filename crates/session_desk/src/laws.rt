//! Laws of desks, over the definitions alone. Each function does nothing of its own: its contract is the law, and a
//! caller learns it by the call.

ghost use Rattle.std.specs.Prelude.{ℕ, ◌≡◌, ◌≤◌, ◌+◌, ◌^◌, ◌-◌, true, false, List, [], ◌∷◌, ◌++◌, length, map, codes, decimal, sum_by, Some, Ok};
ghost use Rattle.std.specs.List.{AllByRecursion, concat};
ghost use Rattle.jass_base.specs.declared.answer.Budget.{Budget};
ghost use Rattle.jass_base.specs.declared.answer.Budget.TheVariants.{All};
ghost use Rattle.ranking_model.specs.Plan.{granted_sum, prefix_within};
ghost use Rattle.ranking_model.specs.Postings.{weighted_postings};
ghost use Rattle.ranking_model.specs.Promises.{IsPromised};
ghost use Rattle.ranking_model.specs.Report.{IsReport, report_line};
ghost use Rattle.ranking_model.specs.Scores.{top_k};
ghost use Rattle.ranking_model.specs.Search.{query_run};
ghost use Rattle.final_certificate.specs.Rule.{report_by};
ghost use Rattle.index_model.specs.Flat.{numbered_flat};
ghost use Rattle.index_file.specs.Sources.{IsSearchable};
ghost use Rattle.index_model.specs.Index.{IndexData};
ghost use Rattle.query_reader.specs.Texts.{plain_mention};
ghost use Rattle.session_desk.specs.declared.refusal.DeskRefusal.{DeskRefusal};
ghost use Rattle.session_desk.specs.Alone.{after_lines, alone, budgets_in, does_close, own_lines, own_replies};
ghost use Rattle.session_desk.specs.Lines.{Grant, Open, Top, Why, is_end, read_desk_line};
ghost use Rattle.session_desk.specs.Replies.{desk_after, desk_refusal, desk_reply, desk_steps, newly_scored};
ghost use Rattle.session_desk.specs.Replies.{opening, plan_of_session, refusal_line, scored_prefix, session_report};
ghost use Rattle.session_desk.specs.State.{DeskState, OpenSession, granted_more, new_state, session_named};
ghost use Rattle.session_desk.specs.Turns.{desk_postings, replies_from, sessions_from, steps_from};
ghost use Rattle.session_desk.specs.declared.desk_limits.TheConstants.{LONGEST_SESSION_NAME, MOST_SESSIONS};

use final_certificate::laws::a_prefix_has_one_report;
use index_model::laws::the_flat_list_is_flat;
use ranking_model::laws::{reports_keep_their_promises, the_prefix_is_the_longest};
use ranking_model::prefix_laws::a_prefix_is_resumed;

/// Lines are answered in turn, up to and with the first line `end`.
#[tactic(auto, unfolding(crate::specs::Turns::replies_from, crate::specs::Turns::steps_from))]
pub fn lines_are_answered_in_turn()
    ensures none { (index : IndexData) (state : DeskState) →
        (concat (replies_from index state []) ≡ []) × (steps_from index state [] ≡ 0) }
    ensures on { (index : IndexData) (state : DeskState) (line : List ℕ) (lines : List (List ℕ)) →
        is_end line ≡ false →
        concat (replies_from index state (line ∷ lines))
        ≡ desk_reply index state line ++ concat (replies_from index (desk_after index state line) lines) }
    ensures end { (index : IndexData) (state : DeskState) (line : List ℕ) (lines : List (List ℕ)) →
        is_end line ≡ true → concat (replies_from index state (line ∷ lines)) ≡ desk_reply index state line }
    ensures on_steps { (index : IndexData) (state : DeskState) (line : List ℕ) (lines : List (List ℕ)) →
        is_end line ≡ false →
        steps_from index state (line ∷ lines)
        ≡ desk_steps index state line + steps_from index (desk_after index state line) lines }
    ensures end_steps { (index : IndexData) (state : DeskState) (line : List ℕ) (lines : List (List ℕ)) →
        is_end line ≡ true → steps_from index state (line ∷ lines) ≡ desk_steps index state line }
{}

/// A refused line has one line as its reply, and leaves the sessions and counts no steps.
pub fn refused_lines_leave_the_state()
    ensures reply { (index : IndexData) (state : DeskState) (line : List ℕ) (refusal : DeskRefusal) →
        desk_refusal index state line ≡ Some refusal → desk_reply index state line ≡ refusal_line refusal }
    ensures after { (index : IndexData) (state : DeskState) (line : List ℕ) (refusal : DeskRefusal) →
        desk_refusal index state line ≡ Some refusal → desk_after index state line ≡ state }
    ensures steps { (index : IndexData) (state : DeskState) (line : List ℕ) (refusal : DeskRefusal) →
        desk_refusal index state line ≡ Some refusal → desk_steps index state line ≡ 0 }
{}

/// What is opened depends on its line and the index alone, has nothing granted, and is then found by its name.
pub fn a_session_is_opened_by_its_line()
    ensures same { (index : IndexData) (first second : DeskState) (name : List ℕ) (k : ℕ)
        (words others : List (List ℕ)) (session other : OpenSession) →
        map plain_mention words ≡ map plain_mention others →
        opening index first name k words ≡ Ok session → opening index second name k others ≡ Ok other →
        session ≡ other }
    ensures none { (index : IndexData) (state : DeskState) (name : List ℕ) (k : ℕ) (words : List (List ℕ))
        (session : OpenSession) →
        opening index state name k words ≡ Ok session → session.granted ≡ 0 }
    ensures found { (index : IndexData) (state : DeskState) (line name : List ℕ) (k : ℕ) (words : List (List ℕ))
        (session : OpenSession) →
        read_desk_line line ≡ Some (Open name k words) → opening index state name k words ≡ Ok session →
        session_named name (desk_after index state line) ≡ Some session }
{}

/// Isolation: the replies to the lines that name a session, up to the one that closes it, are those of a desk that has
/// no other session, to these lines alone. So two sessions that were opened with the same name, k and mentions are told
/// the same, whatever other lines stand before, between and after, and whatever the numbers of frames.
pub fn sessions_are_answered_alone()
    ensures alone { (index : IndexData) (name : List ℕ) (state : DeskState) (session : OpenSession)
        (lines : List (List ℕ)) (frames : ℕ) →
        session_named name state ≡ Some session →
        own_replies index name state lines ≡ replies_from index (alone frames session) (own_lines name lines) }
    ensures same { (index : IndexData) (name : List ℕ) (first second : DeskState) (session : OpenSession)
        (lines others : List (List ℕ)) →
        session_named name first ≡ Some session → session_named name second ≡ Some session →
        own_lines name lines ≡ own_lines name others →
        own_replies index name first lines ≡ own_replies index name second others }
    ensures opened { (index : IndexData) (first second : DeskState) (line other name : List ℕ) (k : ℕ)
        (words more : List (List ℕ)) (session twin : OpenSession) (lines others : List (List ℕ)) →
        read_desk_line line ≡ Some (Open name k words) → read_desk_line other ≡ Some (Open name k more) →
        map plain_mention words ≡ map plain_mention more →
        opening index first name k words ≡ Ok session → opening index second name k more ≡ Ok twin →
        own_lines name lines ≡ own_lines name others →
        own_replies index name (desk_after index first line) lines
        ≡ own_replies index name (desk_after index second other) others }
{}

/// Lines that don't close a session leave its query and k, and grant it the sum of the budgets that name it.
pub fn a_session_has_the_sum_of_its_grants()
    ensures { (index : IndexData) (name : List ℕ) (state : DeskState) (session : OpenSession) (budgets : List Budget)
        (lines : List (List ℕ)) →
        session_named name state ≡ Some session → session.granted ≡ granted_sum budgets →
        AllByRecursion (λ line. does_close name line ≡ false) lines →
        session_named name (after_lines index state lines)
        ≡ Some (record session { granted = granted_sum (budgets ++ budgets_in name lines) }) }
{}

/// Each report and answer of a session is that of one search alone with the sum of its grants.
pub fn sessions_answer_as_one_search()
    ensures grant { (index : IndexData) (state : DeskState) (line name : List ℕ) (session : OpenSession)
        (budgets : List Budget) (budget : Budget) →
        read_desk_line line ≡ Some (Grant name budget) → session_named name state ≡ Some session →
        session.granted ≡ granted_sum budgets →
        let plan = plan_of_session index session in
        let prefix = prefix_within (granted_sum (budgets ++ budget ∷ [])) plan.segments in
        desk_reply index state line
        ≡ report_line session.query.id (report_by prefix plan session.k) session.query.unknown }
    ensures why { (index : IndexData) (state : DeskState) (line name : List ℕ) (session : OpenSession)
        (budgets : List Budget) →
        read_desk_line line ≡ Some (Why name) → session_named name state ≡ Some session →
        session.granted ≡ granted_sum budgets →
        let plan = plan_of_session index session in
        let prefix = prefix_within (granted_sum budgets) plan.segments in
        desk_reply index state line
        ≡ report_line session.query.id (report_by prefix plan session.k) session.query.unknown }
    ensures top { (index : IndexData) (state : DeskState) (line name : List ℕ) (session : OpenSession)
        (budgets : List Budget) →
        read_desk_line line ≡ Some (Top name) → session_named name state ≡ Some session →
        session.granted ≡ granted_sum budgets →
        let plan = plan_of_session index session in
        let prefix = prefix_within (granted_sum budgets) plan.segments in
        desk_reply index state line
        ≡ codes "hits " ++ (decimal (length (top_k prefix plan session.k)) ++ (codes "\n"
        ++ query_run index.names plan session.query.id session.k (prefix ∷ []) (codes "jass"))) }
{}

/// A printed report is that of its prefix, with the one grade that it has, and keeps its promises for every later
/// prefix.
#[tactic(auto, unfolding(crate::specs::Replies::session_report))]
pub fn reports_of_desks_keep_their_promises()
    ensures report { (index : IndexData) (session : OpenSession) →
        IsReport (scored_prefix index session) (plan_of_session index session) session.k
        (session_report index session) }
    ensures promised { (index : IndexData) (session : OpenSession) → IsSearchable index →
        IsPromised (weighted_postings (numbered_flat index) session.query.terms) (scored_prefix index session)
        (plan_of_session index session) session.k (session_report index session) }
{
    a_prefix_has_one_report();
    the_flat_list_is_flat();
    reports_keep_their_promises();
}

/// The steps of a desk are the postings that were scored in the end for the sessions that were ever open.
pub fn the_steps_are_those_of_the_sessions()
    ensures { (index : IndexData) (frames : ℕ) (lines : List (List ℕ)) →
        desk_postings index frames lines
        ≡ sum_by (λ (e : OpenSession). (session_report index e).postings)
        (sessions_from index (new_state frames) lines) }
{
    the_prefix_is_the_longest();
    a_prefix_is_resumed();
}

/// The postings that are scored for a session are at most the sum of its grants. A grant scores what it adds to them,
/// and a second grant of all adds nothing.
pub fn grants_pay_for_the_steps()
    ensures most { (index : IndexData) (session : OpenSession) →
        (session_report index session).postings ≤ session.granted }
    ensures paid { (index : IndexData) (session : OpenSession) (budget : Budget) → session.granted ≤ 2 ^ 64 - 1 →
        (session_report index session).postings + newly_scored index budget session
        ≡ (session_report index (granted_more budget session)).postings }
    ensures again { (index : IndexData) (session : OpenSession) →
        newly_scored index All (granted_more All session) ≡ 0 }
{
    the_prefix_is_the_longest();
    a_prefix_is_resumed();
}

/// The limits of a desk.
pub fn the_limits_of_a_desk_are()
    ensures sessions { MOST_SESSIONS ≡ 64 }
    ensures name { LONGEST_SESSION_NAME ≡ 32 }
{}

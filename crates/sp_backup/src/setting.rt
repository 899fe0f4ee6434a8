//! What a backup starts from.

ghost use Rattle.std.specs.Prelude.{◌≡◌, ◌<◌, ◌≤◌, ◌^◌, ℕ, ◌≤ℤ◌, pos, length, slice_index_or, unsigned_abs};
ghost use Rattle.sp_dd.specs.Func.{Everywhere};
ghost use Rattle.sp_bounds.specs.Bounds.{slack, link_window as theory_link_window, whole_slack, action_window as theory_action_window};
ghost use Rattle.sp_model.specs.Problem.{problem, shape_of};
ghost use Rattle.sp_value.specs.Editions.{no_member};
ghost use Rattle.sp_backup.specs.MemberTables.{AreMemberTables};
ghost use Rattle.sp_backup.specs.Ranges.{AreAbove, AreBelow, AreBetween, IsLeastId, apart, farthest};

use crate::models::model_of;
use crate::values::MemberTables;
use sp_model::{Model, Weights};
use sp_value::Edition;

/// The edition and the belief of a backup, with what all its actions share: the range of the members' values, and the place of
/// the member of the least id.
#[derive(Drop)]
pub(crate) struct Setting<'a> {
    pub edition: &'a Edition,
    pub weights: &'a Weights,
    /// The tables of the members.
    pub tables: &'a MemberTables,
    /// The belief's number, by which it is looked up in what is kept.
    pub belief: u64,
    pub low: i128,
    pub high: i128,
    pub first: u64,
    window_of_links: i128,
    window_of_actions: i128,
    ghost scope: { weights.now.shape ≡ shape_of edition.now.task.model },
    ghost tables_are: { AreMemberTables edition.now (length edition.now.members) tables.now },
    ghost range: { AreBetween edition.now low high },
    ghost least_id: { IsLeastId edition.now first },
    ghost links_apart: { window_of_links ≡ pos (theory_link_window (problem edition.now.task.model) (2 ^ 62) (apart low high)) },
    ghost links_small: { unsigned_abs window_of_links ≤ 2 ^ 116 },
    ghost actions_apart: { window_of_actions ≡ pos (theory_action_window (problem edition.now.task.model) (2 ^ 62) (farthest low high)) },
    ghost actions_small: { unsigned_abs window_of_actions ≤ 2 ^ 116 },
}

impl<'a> Setting<'a> {
    /// The setting of these. Takes no memory.
    pub fn new(
        edition: &'a Edition,
        weights: &'a Weights,
        tables: &'a MemberTables,
        belief: u64,
    ) -> Setting<'a>
        requires scope { weights.now.shape ≡ shape_of edition.now.task.model }
        requires tables { AreMemberTables edition.now (length edition.now.members) tables.now }
        ensures edition { result.edition.now ≡ edition.now }
        ensures weights { result.weights.now ≡ weights.now }
        ensures belief { result.belief ≡ belief }
    {
        let low = least_value(edition, tables);
        let high = greatest_value(edition, tables);
        let first = first_place(edition);
        let model = model_of(edition);
        Setting {
            edition,
            weights,
            tables,
            belief,
            low,
            high,
            first,
            window_of_links: link_window(model, low, high),
            window_of_actions: action_window(model, low, high),
        }
    }

    /// How far apart two members may be at the next weights before scaling where the estimates may still tell otherwise.
    pub fn link_window(&self) -> i128
        ensures value { result ≡ pos (theory_link_window (problem self.now.edition.now.task.model) (2 ^ 62) (apart self.now.low self.now.high)) }
        ensures small { unsigned_abs result ≤ 2 ^ 116 }
    {
        self.window_of_links
    }

    /// How far apart the promises of two actions may be where their vectors may still tell otherwise.
    pub fn action_window(&self) -> i128
        ensures value { result ≡ pos (theory_action_window (problem self.now.edition.now.task.model) (2 ^ 62) (farthest self.now.low self.now.high)) }
        ensures small { unsigned_abs result ≤ 2 ^ 116 }
    {
        self.window_of_actions
    }
}

/// The least value of all members.
fn least_value(edition: &Edition, tables: &MemberTables) -> i128
    requires { AreMemberTables edition.now (length edition.now.members) tables.now }
    ensures bound { AreAbove edition.now (length edition.now.members) result }
    ensures small { unsigned_abs result ≤ 10 ^ 18 }
{
    let members = edition.members();
    let mut low = least_of(edition, tables, 0);
    for k in 1..members.len() {
        let value = least_of(edition, tables, k);
        low = lesser(low, value);
    }
    low
}

/// The least value of the member at a place.
fn least_of(edition: &Edition, tables: &MemberTables, place: u64) -> i128
    requires place { place < length edition.now.members }
    requires tables { AreMemberTables edition.now (length edition.now.members) tables.now }
    ensures bound { Everywhere (slice_index_or edition.now.members place no_member).vector (λ v. result ≤ℤ v) }
    ensures small { unsigned_abs result ≤ 10 ^ 18 }
{
    let _ = edition.members();
    tables.at(place).low
}

/// The lesser of two numbers.
fn lesser(a: i128, b: i128) -> i128
    requires a { unsigned_abs a ≤ 10 ^ 18 }
    requires b { unsigned_abs b ≤ 10 ^ 18 }
    ensures below_a { result ≤ℤ a }
    ensures below_b { result ≤ℤ b }
    ensures small { unsigned_abs result ≤ 10 ^ 18 }
{
    if a < b { a } else { b }
}

/// The greatest value of all members.
fn greatest_value(edition: &Edition, tables: &MemberTables) -> i128
    requires { AreMemberTables edition.now (length edition.now.members) tables.now }
    ensures bound { AreBelow edition.now (length edition.now.members) result }
    ensures small { unsigned_abs result ≤ 10 ^ 18 }
{
    let members = edition.members();
    let mut high = greatest_of(edition, tables, 0);
    for k in 1..members.len() {
        let value = greatest_of(edition, tables, k);
        high = greater(high, value);
    }
    high
}

/// The greatest value of the member at a place.
fn greatest_of(edition: &Edition, tables: &MemberTables, place: u64) -> i128
    requires place { place < length edition.now.members }
    requires tables { AreMemberTables edition.now (length edition.now.members) tables.now }
    ensures bound { Everywhere (slice_index_or edition.now.members place no_member).vector (λ v. v ≤ℤ result) }
    ensures small { unsigned_abs result ≤ 10 ^ 18 }
{
    let _ = edition.members();
    tables.at(place).high
}

/// The greater of two numbers.
fn greater(a: i128, b: i128) -> i128
    requires a { unsigned_abs a ≤ 10 ^ 18 }
    requires b { unsigned_abs b ≤ 10 ^ 18 }
    ensures above_a { a ≤ℤ result }
    ensures above_b { b ≤ℤ result }
    ensures small { unsigned_abs result ≤ 10 ^ 18 }
{
    if a < b { b } else { a }
}

/// The place of the member of the least id.
fn first_place(edition: &Edition) -> u64
    ensures { IsLeastId edition.now result }
{
    let members = edition.members();
    let mut first = 0;
    for k in 1..members.len() {
        if members.at(k).id < members.at(first).id {
            first = k;
        }
    }
    first
}

/// The window of links for members whose values lie between these.
fn link_window(model: &Model, low: i128, high: i128) -> i128
    requires low { unsigned_abs low ≤ 10 ^ 18 }
    requires high { unsigned_abs high ≤ 10 ^ 18 }
    ensures value { result ≡ pos (theory_link_window (problem model.now) (2 ^ 62) (apart low high)) }
    ensures small { unsigned_abs result ≤ 2 ^ 116 }
{
    let variables = model.variable_count() + model.sight_count();
    let spread = (high - low).unsigned_abs();
    let floors = variables as u128 * (1 << 62);
    let rests = spread * slack_of(model) as u128;
    (floors + rests) as i128
}

/// What all the exact next weights may have above those before scaling.
fn slack_of(model: &Model) -> u64
    ensures value { result ≡ slack (problem model.now) }
    ensures few { result ≤ 2 ^ 53 }
{
    let states = model.state_count();
    let pairs = states * states;
    (model.variable_count() + model.sight_count()) * pairs
}

/// The window of actions for members whose values lie between these.
fn action_window(model: &Model, low: i128, high: i128) -> i128
    requires low { unsigned_abs low ≤ 10 ^ 18 }
    requires high { unsigned_abs high ≤ 10 ^ 18 }
    ensures value { result ≡ pos (theory_action_window (problem model.now) (2 ^ 62) (farthest low high)) }
    ensures small { unsigned_abs result ≤ 2 ^ 116 }
{
    let variables = 2 * model.variable_count() + model.sight_count() + 1;
    let most = low.unsigned_abs() + high.unsigned_abs();
    let floors = variables as u128 * (1 << 62);
    let rests = most * whole_slack_of(model) as u128;
    let inside = floors + 2 * rests;
    let small = 1_000_000_002 + model.joint_count();
    (small as u128 + inside / 1_000_000_000) as i128
}

/// What all joint observations together may lack before scaling of the weights' total.
fn whole_slack_of(model: &Model) -> u64
    ensures value { result ≡ whole_slack (problem model.now) }
    ensures few { result ≤ 2 ^ 53 }
{
    let states = model.state_count();
    let pairs = states * states;
    let sights = states * model.joint_count();
    model.variable_count() * pairs + model.sight_count() * sights
}

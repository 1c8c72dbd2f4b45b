ghost use Rattle.std.specs.Prelude.{◌≡◌, option_map};
ghost use Rattle.cf_types.specs.declared.numbers.CfId.{CfId};
ghost use Rattle.cf_types.specs.declared.numbers.ConnId.{ConnId};
ghost use Rattle.cf_types.specs.declared.refusals.Refusal.TheVariants as refusal;
ghost use Rattle.cf_types.specs.Forms.{IsFacility, IsForm};
ghost use Rattle.engine_api.specs.History.{replay, IsLegal};
ghost use Rattle.engine_api.specs.Shell.{candidates, if_quiesced, is_off, is_severed, stands_at};
ghost use Rattle.shell_laws.specs.Facts.{candidates_told, capacity_told, copied_told, failed_told, lost_told, quiesced_told, varied_told};
ghost use Rattle.shell_laws.specs.History.{actives_after, conns_after};

use cf_types::StrForm;
use engine_api::{Engine, History};

/// After every legal history a rebuild's new instance has as many items as the COPY entries of the
/// stage tell, from its beginning on, or from the last departure or forcing that emptied it.
pub fn copies_what_is_told<E: Engine>(form: &StrForm, history: &History<E::Cmd, E::Reply>)
    requires legal { IsLegal E.meaning form.now history.now }
    ensures copied { (replay E.meaning form.now history.now).copied
        ≡ copied_told (actives_after E.meaning form.now) history.now }
{}

/// After every legal history commands on the content are refused as quiesced, with the rebuild's
/// number, for just those members that responded to its QUIESCE, unless it is being stopped.
pub fn quiesces_as_told<E: Engine>(form: &StrForm, history: &History<E::Cmd, E::Reply>)
    requires legal { IsLegal E.meaning form.now history.now }
    ensures quiesced { (by : ConnId)
        → if_quiesced by (replay E.meaning form.now history.now).shell.rebuild
        ≡ option_map refusal.Quiesced (quiesced_told (actives_after E.meaning form.now)
        history.now by) }
{}

/// After every legal history a connector can't reach a facility exactly where the last LOSECONN or
/// RESTORECONN of both is a LOSECONN.
pub fn severs_as_told<E: Engine>(form: &StrForm, history: &History<E::Cmd, E::Reply>)
    requires legal { IsLegal E.meaning form.now history.now }
    ensures severed { (by : ConnId) (cf : CfId) → IsFacility cf
        → is_severed (replay E.meaning form.now history.now).shell by cf
        ≡ lost_told history.now by cf }
{}

/// After every legal history a facility is varied off exactly where the last VARY of it is OFF.
pub fn varies_as_told<E: Engine>(form: &StrForm, history: &History<E::Cmd, E::Reply>)
    requires legal { IsLegal E.meaning form.now history.now }
    ensures off { (cf : CfId) → IsFacility cf
        → is_off (replay E.meaning form.now history.now).shell cf ≡ varied_told history.now cf }
{}

/// After every legal history the structure has failed exactly where a mark or a VARY told so, and
/// it wasn't deallocated since.
pub fn fails_as_told<E: Engine>(form: &StrForm, history: &History<E::Cmd, E::Reply>)
    requires legal { IsLegal E.meaning form.now history.now }
    ensures failed { (replay E.meaning form.now history.now).shell.failed
        ≡ failed_told form.now (conns_after E.meaning form.now) history.now }
{}

/// After every legal history the capacity is that of the last rebuild whose COPY passed; that of
/// the policy where none did, or the structure failed or was deallocated since.
pub fn has_the_capacity_told<E: Engine>(form: &StrForm, history: &History<E::Cmd, E::Reply>)
    requires legal { IsLegal E.meaning form.now history.now }
    ensures caps { (replay E.meaning form.now history.now).shell.caps
        ≡ capacity_told form.now (conns_after E.meaning form.now)
        (actives_after E.meaning form.now) history.now }
{}

/// After every legal history an instance can be made for a connector in just those facilities that
/// the policy prefers, in their order, that aren't varied off, hold no instance, and are reached.
pub fn finds_candidates_as_told<E: Engine>(form: &StrForm, history: &History<E::Cmd, E::Reply>)
    requires formed { IsForm form.now }
    requires legal { IsLegal E.meaning form.now history.now }
    ensures candidates { (by : ConnId)
        → candidates form.now (replay E.meaning form.now history.now).shell by
        ≡ candidates_told form.now (stands_at (replay E.meaning form.now history.now).shell)
        history.now by }
{}

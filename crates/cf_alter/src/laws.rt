ghost use Rattle.std.specs.Prelude.{◌≡◌, ℕ, Bool, IsTrue, []};
ghost use Rattle.cf_types.specs.declared.alter_commands.AlterCmd.{AlterCmd};
ghost use Rattle.cf_types.specs.declared.forms.Caps.{Caps};
ghost use Rattle.cf_types.specs.declared.numbers.ConnId.{ConnId};
ghost use Rattle.engine_api.specs.History.{replay};
ghost use Rattle.engine_api.specs.declared.shapes.Shape.{Shape};
ghost use Rattle.alter_model.specs.Meaning.{alter_meaning, alter_done, alters};
ghost use Rattle.alter_model.specs.declared.contents.AlterContent.{AlterContent};
ghost use Rattle.cf_alter.specs.Limits.{IsLimited};

use crate::altered::Altered;
use cf_types::{AlterCmd, AlterReply, StrForm};
use engine_api::{History, SetCaps};
use shell_laws::holds_at_its_capacity;

/// After whatever calls and marks the limits take no more units than the capacity of the instance,
/// and what there is fits them; where there are none it fits the capacity.
pub fn fits_its_limits<E: SetCaps>(
    form: &StrForm,
    history: &History<AlterCmd<E::Cmd>, AlterReply<E::Reply>>,
)
    requires kind { IsTrue (E.is_kind form.now.kind) }
    ensures limited { IsLimited E.meaning form.now (replay (alter_meaning E.meaning) form.now
        history.now) }
{
    holds_at_its_capacity::<Altered<E>>(form, history);
}

/// START, STEP and STOP leave what there is, with its order and its registrations, and each bit;
/// and they send nothing.
pub fn alters_nothing_else<E: SetCaps>()
    ensures content { (shape : Shape) (caps : Caps) (content : AlterContent E.State) (by : ConnId)
        (cmd : AlterCmd E.Cmd) → alters cmd ≡ Bool.true
        → (alter_done E.meaning shape caps content by cmd).state.inner ≡ content.inner }
    ensures bits { (shape : Shape) (caps : Caps) (content : AlterContent E.State) (by : ConnId)
        (cmd : AlterCmd E.Cmd) (conn : ConnId) (index : ℕ) → alters cmd ≡ Bool.true
        → (alter_meaning E.meaning).stands (alter_done E.meaning shape caps content by cmd).state
        conn index ≡ (alter_meaning E.meaning).stands content conn index }
    ensures letters { (shape : Shape) (caps : Caps) (content : AlterContent E.State) (by : ConnId)
        (cmd : AlterCmd E.Cmd) → alters cmd ≡ Bool.true
        → (alter_done E.meaning shape caps content by cmd).letters ≡ [] }
{}

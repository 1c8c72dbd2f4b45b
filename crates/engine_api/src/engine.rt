ghost use Rattle.std.specs.Prelude.{◌≡◌, ◌≤◌, ◌<◌, ◌++◌, ◌∷◌, [], List, Bool, IsTrue, IfOk, IfErr, OnOk, OnErr, ℕ, length, slice_get, None, Some, true, false};
ghost use Rattle.cf_types.specs.Forms.{IsForm, IsCapacity, IsCaller};
ghost use Rattle.cf_types.specs.Gains.{Gains};
ghost use Rattle.cf_types.specs.declared.effects.Effects.{Effects};
ghost use Rattle.cf_types.specs.declared.forms.Caps.{Caps};
ghost use Rattle.cf_types.specs.declared.forms.Kind.{Kind};
ghost use Rattle.cf_types.specs.declared.numbers.ConnId.{ConnId};
ghost use Rattle.engine_api.specs.declared.shapes.Shape.{Shape};
ghost use Rattle.engine_api.specs.Shapes.{shape_of};
ghost use Rattle.engine_api.specs.Meaning.{Meaning, Held, Wish, new_held, answer, letters_of, departure, with_departure, with_back, with_forgotten, stands_in, items_of, with_item, without_last_item};
ghost use Rattle.engine_api.specs.Meaning.Wish.{ForCmd, ForLeave, ForForget};
ghost use Rattle.engine_api.specs.Items.{Fits, IsNoMore, IsNoMoreOf, IsAlone, IsNextItem, content_of_items};

use cf_types::{Caps, ConnId, Effects, NoMemory, Refusal, StrForm};
use std::alloc::Global;

/// The content of a structure, however it is kept, with the commands on it.
///
/// What commands mean is said once, by `meaning`; what an engine contains is `held`. A command, a
/// departure and the end of registrations are got ready for first; then they take no memory.
pub trait Engine: Sized + Send + Drop {
    /// Commands on the content.
    type Cmd: Send + Drop;

    /// Answers to commands that are not refused.
    type Reply: Send + Drop;

    /// What a copy of the content is made of, one after another.
    type Item: Send + Drop;

    /// Where each item of a content is found. A copy takes it once, and asks by it for the items.
    type Order: Send + Drop;

    /// The content as contracts see it. No value of it is made.
    type State;

    /// What commands, departures, items and bits mean.
    ghost meaning: { Meaning Self.Cmd Self.Reply Self.Item Self.State };

    /// The kind of structure that the engine is for.
    ghost is_kind: { Kind → Bool };

    /// Holds of the contents that a structure of this shape and capacity can have.
    ghost is_content: { Shape → Caps → Self.State → Type 0 };

    /// The shape, the capacity and the content.
    ghost held: { Self → Held Self.State };

    /// The order is that of the items of what an engine holds.
    ghost is_order: { Self.Order → Held Self.State → Type 0 };

    /// The engine is ready for this, and so are the effects.
    ghost is_ready: { Self → Wish Self.Cmd → Effects → Type 0 };

    /// An engine with nothing in it, of this capacity.
    fn empty(alloc: Global, form: &StrForm, caps: Caps) -> Result<Self, NoMemory>
        requires form { IsForm form.now }
        requires kind { IsTrue (is_kind form.now.kind) }
        requires caps { IsCapacity caps }
        ensures { IfOk result (λ engine. held engine ≡ new_held meaning (shape_of form.now) caps) };

    /// A second engine with the same content.
    fn copy(&self, alloc: Global) -> Result<Self, NoMemory>
        ensures { IfOk result (λ copy. held copy ≡ held self.now) };

    /// Takes all memory that the command, its reply and its effects need.
    fn ready(&mut self, by: ConnId, cmd: &Self::Cmd, out: &mut Effects) -> Result<(), NoMemory>
        requires caller { IsCaller by }
        ensures ready { OnOk result (is_ready self.new (ForCmd by cmd.now) out.new) }
        ensures held { held self.new ≡ held self.old }
        ensures bits { out.new.bits.items ≡ out.old.bits.items }
        ensures mail { out.new.mail.items ≡ out.old.mail.items };

    /// Does the command, or refuses it; a refused command changes nothing. The bits that changed
    /// and the letters to send are appended to the effects.
    fn apply(
        &mut self,
        by: ConnId,
        cmd: &Self::Cmd,
        out: &mut Effects,
    ) -> Result<Self::Reply, Refusal>
        requires caller { IsCaller by }
        requires ready { is_ready self.old (ForCmd by cmd.now) out.old }
        ensures step { record { reply = result; held = held self.new } ≡ answer meaning
            (held self.old) by cmd.now }
        ensures bits { Gains (stands_in meaning (held self.old)) (stands_in meaning (held self.new))
            out.old.bits.items out.new.bits.items }
        ensures mail { out.new.mail.items ≡ out.old.mail.items ++ letters_of meaning (held self.old)
            by cmd.now }
        ensures fits { length (letters_of meaning (held self.old) by cmd.now) ≤ out.old.mail.room };

    /// Takes all memory that a departure of the connector needs.
    fn leave_ready(&mut self, conn: ConnId, out: &mut Effects) -> Result<(), NoMemory>
        requires caller { IsCaller conn }
        ensures ready { OnOk result (is_ready self.new (ForLeave conn) out.new) }
        ensures held { held self.new ≡ held self.old }
        ensures bits { out.new.bits.items ≡ out.old.bits.items }
        ensures mail { out.new.mail.items ≡ out.old.mail.items };

    /// The connector departs; with `keep`, interests that outlive a failure stay.
    fn leave(&mut self, conn: ConnId, keep: bool, out: &mut Effects)
        requires caller { IsCaller conn }
        requires ready { is_ready self.old (ForLeave conn) out.old }
        ensures held { held self.new ≡ with_departure meaning (held self.old) conn keep }
        ensures bits { Gains (stands_in meaning (held self.old)) (stands_in meaning (held self.new))
            out.old.bits.items out.new.bits.items }
        ensures mail { out.new.mail.items
            ≡ out.old.mail.items ++ (departure meaning (held self.old) conn keep).letters }
        ensures fits { length (departure meaning (held self.old) conn keep).letters ≤
            out.old.mail.room };

    /// A failed connection is taken up again.
    fn back(&mut self, conn: ConnId)
        requires caller { IsCaller conn }
        ensures held { held self.new ≡ with_back meaning (held self.old) conn };

    /// Takes all memory that the end of registrations needs.
    fn forget_ready(&mut self, out: &mut Effects) -> Result<(), NoMemory>
        ensures ready { OnOk result (is_ready self.new ForForget out.new) }
        ensures held { held self.new ≡ held self.old }
        ensures bits { out.new.bits.items ≡ out.old.bits.items }
        ensures mail { out.new.mail.items ≡ out.old.mail.items };

    /// Registrations end, as they do with a rebuild.
    fn forget(&mut self, out: &mut Effects)
        requires { is_ready self.old ForForget out.old }
        ensures held { held self.new ≡ with_forgotten meaning (held self.old) }
        ensures bits { Gains (stands_in meaning (held self.old)) (stands_in meaning (held self.new))
            out.old.bits.items out.new.bits.items }
        ensures mail { out.new.mail.items ≡ out.old.mail.items };

    /// How many items the content has.
    fn count(&self) -> u32
        ensures { result ≡ length (items_of meaning (held self.now)) };

    /// A copy of an item, counted from 0.
    fn item(&self, alloc: Global, k: u32) -> Result<Self::Item, NoMemory>
        requires { k < length (items_of meaning (held self.now)) }
        ensures { IfOk result
            (λ item. slice_get (items_of meaning (held self.now)) k ≡ Some item) };

    /// The order of the items, as long as the content stays the same.
    fn order(&self, alloc: Global) -> Result<Self::Order, NoMemory>
        ensures { IfOk result (λ order. is_order order (held self.now)) };

    /// A copy of an item, counted from 0, found by the order of all.
    fn item_in(&self, alloc: Global, order: &Self::Order, k: u32) -> Result<Self::Item, NoMemory>
        requires order { is_order order.now (held self.now) }
        requires within { k < length (items_of meaning (held self.now)) }
        ensures { IfOk result
            (λ item. slice_get (items_of meaning (held self.now)) k ≡ Some item) };

    /// Puts an item behind the others; want of memory hands it back, and is told beside it.
    fn place(&mut self, item: Self::Item) -> Result<(), (Self::Item, NoMemory)>
        requires next { IsNextItem meaning is_content (held self.old).shape (held self.old).state
            item }
        requires fits { Fits (held self.old).shape.kind
            (meaning.need (items_of meaning (held self.old) ++ item ∷ [])) (held self.old).caps }
        ensures ok { OnOk result (held self.new ≡ with_item meaning (held self.old) item) }
        ensures err { OnErr result (held self.new ≡ held self.old) }
        ensures handed_back { IfErr result (λ back. back.0 ≡ item) };

    /// Takes the last item away, where there are items and nothing else.
    fn unplace(&mut self)
        requires some { 0 < length (items_of meaning (held self.old)) }
        requires alone { IsAlone meaning (held self.old).shape (held self.old).state }
        ensures { held self.new ≡ without_last_item meaning (held self.old) };

    /// The entries and elements that the content needs.
    fn need(&self) -> Caps
        ensures { result ≡ meaning.need (items_of meaning (held self.now)) };

    /// The capacity.
    fn capacity(&self) -> Caps
        ensures { result ≡ (held self.now).caps };

    /// The bit of the connector's vector at the index.
    fn stands(&self, conn: ConnId, index: u32) -> bool
        requires { IsCaller conn }
        ensures { result ≡ stands_in meaning (held self.now) conn index };

    /// An engine that is ready with some effects is ready with others that have as much room.
    ghost ready_more: { (engine : Self) (wish : Wish Self.Cmd) (out other : Effects)
        → is_ready engine wish out → out.bits.room ≤ other.bits.room
        → out.mail.room ≤ other.mail.room → is_ready engine wish other };

    /// Nothing is a content, in which no bit stands, and whose items are none.
    ghost content_empty: { (shape : Shape) (caps : Caps) → is_content shape caps
        (meaning.empty shape) };

    ghost clear_empty: { (shape : Shape) (conn : ConnId) (index : ℕ)
        → meaning.stands (meaning.empty shape) conn index ≡ false };

    ghost items_empty: { (shape : Shape) → meaning.items shape (meaning.empty shape) ≡ [] };

    /// Commands and departures lead from content to content.
    ghost content_done: { (shape : Shape) (caps : Caps) (state : Self.State)
        (by : ConnId) (cmd : Self.Cmd)
        → IsTrue (is_kind shape.kind) → is_content shape caps state
        → meaning.cause shape caps state by cmd ≡ None
        → is_content shape caps (meaning.done shape caps state by cmd).state };

    ghost content_leave: { (shape : Shape) (caps : Caps) (state : Self.State)
        (conn : ConnId) (keep : Bool)
        → is_content shape caps state → is_content shape caps
        (meaning.leave shape state conn keep).state };

    ghost content_back: { (shape : Shape) (caps : Caps) (state : Self.State) (conn : ConnId)
        → is_content shape caps state → is_content shape caps (meaning.back state conn) };

    /// A connection that is taken up again turns no bit.
    ghost bits_back: { (state : Self.State) (conn : ConnId)
        → meaning.stands (meaning.back state conn) ≡ meaning.stands state };

    /// The items of a content make the content again, without its registrations.
    ghost made_again: { (shape : Shape) (caps : Caps) (state : Self.State)
        → is_content shape caps state → content_of_items meaning shape (meaning.items shape state) ≡
        meaning.forget state };

    /// The first items of a content make one that has just them; it is a content at each capacity
    /// that they fit; and the last of them goes with `unplace`.
    ghost items_front: { (shape : Shape) (caps : Caps) (state : Self.State)
        (front others : List Self.Item)
        → is_content shape caps state → meaning.items shape state ≡ front ++ others
        → meaning.items shape (content_of_items meaning shape front) ≡ front };

    ghost content_front: { (shape : Shape) (caps other : Caps) (state : Self.State)
        (front others : List Self.Item)
        → IsTrue (is_kind shape.kind)
        → is_content shape caps state → meaning.items shape state ≡ front ++ others
        → Fits shape.kind (meaning.need front) other
        → is_content shape other (content_of_items meaning shape front) };

    ghost unplace_front: { (shape : Shape) (caps : Caps) (state : Self.State)
        (front : List Self.Item) (item : Self.Item) (others : List Self.Item)
        → is_content shape caps state → meaning.items shape state ≡ front ++ item ∷ others
        → meaning.unplace shape (content_of_items meaning shape (front ++ item ∷ [])) ≡
        content_of_items meaning shape front };

    /// The first items need no more than all.
    ghost need_first: { (items others : List Self.Item) → IsNoMore (meaning.need items)
        (meaning.need (items ++ others)) };

    /// A departure never raises the need, but for the entries of a lock structure.
    ghost need_leave: { (shape : Shape) (caps : Caps) (state : Self.State)
        (conn : ConnId) (keep : Bool)
        → IsTrue (is_kind shape.kind) → is_content shape caps state
        → IsNoMoreOf shape.kind (meaning.need
        (meaning.items shape (meaning.leave shape state conn keep).state))
        (meaning.need (meaning.items shape state)) };
}

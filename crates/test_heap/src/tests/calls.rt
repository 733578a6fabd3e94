//! The calls that a step can make, by their names.

/// A call of a thread on itself, or on its memory.
#[derive(Clone, Copy)]
pub(super) enum OnThread {
    /// The thread can't leave: it has a handle, or a dead block.
    Stay,
    /// The thread leaves after so many turns of work, and another one takes its place: its births and frees.
    LeaveAfter,
    Settle,
    Globals,
    ClearGlobals,
    /// All memory that is left is taken away.
    Starve,
    /// All that was taken comes back.
    Feed,
}

/// A call on the frame, or what is seen of it.
#[derive(Clone, Copy)]
pub(super) enum OnFrame {
    Handles,
    Ledger,
    Work,
    /// Whether the thread was told anything.
    Poll,
    IsIdle,
    SparePlace,
    ClaimFrom,
    ClaimNear,
}

/// A call on the thread's places.
#[derive(Clone, Copy)]
pub(super) enum OnPlaces {
    Make,
    /// Of a text of its own, which is handed back where it is refused.
    NewText,
    Retain,
    /// Of what is in the last place.
    Duplicate,
    /// The last place goes, and what is in it.
    Drop,
    /// A reference to None into a new place, by `Handles::keep` or by `Handles::push`.
    KeepNone,
    PushNone,
    /// So many places can be had.
    WithPlaces,
    Release,
    /// Whether the reference went by itself.
    ReleaseCounted,
    ReleaseAll,
    /// What is in the place becomes the entry of a new list, which is there then.
    Nest,
    Cell,
    KindOf,
    LenOf,
    IntOf,
    TextOf,
    // What takes a value.
    ListPush,
    ListSet,
    Send,
    DictSet,
    // What gives one.
    ListPop,
    ListGet,
    ListTake,
    Recv,
    DictFindBy,
    DictDelBy,
}

/// A call on one object, by its handle.
#[derive(Clone, Copy)]
pub(super) enum OnObject {
    DictPut,
    DictFind,
    DictDel,
    DictKey,
    DictPair,
    DictKeyBy,
    TextInto,
    // By a guard.
    GuardPut,
    GuardPair,
    GuardEntry,
    GuardTake,
    GuardSwap,
}

/// A call by values on one object, by its handle.
#[derive(Clone, Copy)]
pub(super) enum OnValue {
    // What takes a value.
    ListPush,
    ListSet,
    ListPut,
    Send,
    DictSet,
    DictPutNew,
    // What gives one.
    ListPop,
    ListGet,
    ListTake,
    Recv,
    DictFind,
    DictDel,
    DictPair,
}

/// A call of a step.
#[derive(Clone, Copy)]
pub(super) enum Call {
    Thread(OnThread),
    Frame(OnFrame),
    Places(OnPlaces),
    Object(OnObject),
    Value(OnValue),
}

/// The call on one object that bears this name.
fn on_object(name: &str) -> Option<OnObject> {
    match name {
        "dict_put" => Some(OnObject::DictPut),
        "dict_find" => Some(OnObject::DictFind),
        "dict_del" => Some(OnObject::DictDel),
        "dict_key" => Some(OnObject::DictKey),
        "dict_pair" => Some(OnObject::DictPair),
        "dict_key_by" => Some(OnObject::DictKeyBy),
        "text_into" => Some(OnObject::TextInto),
        "guard_put" => Some(OnObject::GuardPut),
        "guard_pair" => Some(OnObject::GuardPair),
        "guard_entry" => Some(OnObject::GuardEntry),
        "guard_take" => Some(OnObject::GuardTake),
        "guard_swap" => Some(OnObject::GuardSwap),
        _ => None,
    }
}

/// The call by values that bears this name.
fn on_value(name: &str) -> Option<OnValue> {
    match name {
        "list_push_value" => Some(OnValue::ListPush),
        "list_set_value" => Some(OnValue::ListSet),
        "list_put_value" => Some(OnValue::ListPut),
        "send_value" => Some(OnValue::Send),
        "dict_set_value" => Some(OnValue::DictSet),
        "dict_put_new_value" => Some(OnValue::DictPutNew),
        "list_pop_value" => Some(OnValue::ListPop),
        "list_get_value" => Some(OnValue::ListGet),
        "list_take_value" => Some(OnValue::ListTake),
        "recv_value" => Some(OnValue::Recv),
        "dict_find_value" => Some(OnValue::DictFind),
        "dict_del_value" => Some(OnValue::DictDel),
        "dict_pair_value" => Some(OnValue::DictPair),
        _ => None,
    }
}

/// The call of a container on the thread's places that bears this name.
fn on_container(name: &str) -> Option<OnPlaces> {
    match name {
        "list_push" => Some(OnPlaces::ListPush),
        "list_set" => Some(OnPlaces::ListSet),
        "send" => Some(OnPlaces::Send),
        "dict_set" => Some(OnPlaces::DictSet),
        "list_pop" => Some(OnPlaces::ListPop),
        "list_get" => Some(OnPlaces::ListGet),
        "list_take" => Some(OnPlaces::ListTake),
        "recv" => Some(OnPlaces::Recv),
        "dict_find_by" => Some(OnPlaces::DictFindBy),
        "dict_del_by" => Some(OnPlaces::DictDelBy),
        _ => None,
    }
}

/// The other call on the thread's places that bears this name.
fn on_places(name: &str) -> Option<OnPlaces> {
    match name {
        "make" => Some(OnPlaces::Make),
        "new_text" => Some(OnPlaces::NewText),
        "retain" => Some(OnPlaces::Retain),
        "duplicate" => Some(OnPlaces::Duplicate),
        "drop" => Some(OnPlaces::Drop),
        "keep_none" => Some(OnPlaces::KeepNone),
        "push_none" => Some(OnPlaces::PushNone),
        "with_places" => Some(OnPlaces::WithPlaces),
        "release" => Some(OnPlaces::Release),
        "release_counted" => Some(OnPlaces::ReleaseCounted),
        "release_all" => Some(OnPlaces::ReleaseAll),
        "nest" => Some(OnPlaces::Nest),
        "cell" => Some(OnPlaces::Cell),
        "kind_of" => Some(OnPlaces::KindOf),
        "len_of" => Some(OnPlaces::LenOf),
        "int_of" => Some(OnPlaces::IntOf),
        "text_of" => Some(OnPlaces::TextOf),
        _ => on_container(name),
    }
}

/// The call on the frame that bears this name.
fn on_frame(name: &str) -> Option<OnFrame> {
    match name {
        "handles" => Some(OnFrame::Handles),
        "ledger" => Some(OnFrame::Ledger),
        "work" => Some(OnFrame::Work),
        "poll" => Some(OnFrame::Poll),
        "is_idle" => Some(OnFrame::IsIdle),
        "spare_place" => Some(OnFrame::SparePlace),
        "claim_from" => Some(OnFrame::ClaimFrom),
        "claim_near" => Some(OnFrame::ClaimNear),
        _ => None,
    }
}

/// The call of a thread on itself that bears this name.
fn on_thread(name: &str) -> Option<OnThread> {
    match name {
        "stay" => Some(OnThread::Stay),
        "leave_after" => Some(OnThread::LeaveAfter),
        "settle" => Some(OnThread::Settle),
        "globals" => Some(OnThread::Globals),
        "clear_globals" => Some(OnThread::ClearGlobals),
        "starve" => Some(OnThread::Starve),
        "feed" => Some(OnThread::Feed),
        _ => None,
    }
}

impl Call {
    /// The call that bears this name.
    pub(super) fn named(name: &str) -> Option<Call> {
        if let Some(call) = on_places(name) {
            return Some(Call::Places(call));
        }
        if let Some(call) = on_object(name) {
            return Some(Call::Object(call));
        }
        if let Some(call) = on_value(name) {
            return Some(Call::Value(call));
        }
        if let Some(call) = on_frame(name) {
            return Some(Call::Frame(call));
        }
        match on_thread(name) {
            Some(call) => Some(Call::Thread(call)),
            None => None,
        }
    }
}

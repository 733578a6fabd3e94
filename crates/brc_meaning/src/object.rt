//! One object, and the calls on it.

ghost use Rattle.std.specs.Prelude.{◌≡◌, ◌≤◌, ◌++◌, ◌∷◌, [], IfOk, IfErr};
ghost use Rattle.brc_words.specs.declared.fault.Fault.TheVariants.{OutOfMemory};
ghost use Rattle.brc_words.specs.declared.limits.TheConstants.{MOST_ENTRIES};
ghost use Rattle.brc_meaning.specs.Objects.{list_call, queue_call, dict_call, object_call, keyed_call, entries_in};
ghost use Rattle.brc_meaning.specs.Objects.{number_in, text_in};
ghost use Rattle.brc_meaning.specs.Outcomes.{CallsAsMeant};

use crate::call::{Call, KeyedCall};
use crate::printed::Printed;
use crate::reference::Reference;
use brc_plain::{PlainDict, PlainList, PlainQueue};
use brc_words::{Fault, Key, Text};
use std::alloc::Allocator;

/// An object that a section made.
#[derive(Drop)]
pub enum Object<A: Allocator> {
    Int(i64),
    Text(Text<A>),
    List(PlainList<Reference, A>),
    Dict(PlainDict<Reference, A>),
    Mailbox(PlainQueue<Reference, A>),
}

fn call_list<A: Allocator>(
    entries: &mut PlainList<Reference, A>,
    call: Call,
) -> Result<Option<Reference>, Fault>
    ensures { CallsAsMeant result entries.old entries.new (list_call call entries.old) }
{
    match call {
        Call::Push(value) => match entries.push(value) {
            Ok(()) => Ok(None),
            Err((fault, _)) => Err(fault),
        },
        Call::Pop => match entries.pop() {
            Ok(entry) => Ok(Some(entry)),
            Err(fault) => Err(fault),
        },
        Call::Get(index) => match entries.get(index as usize) {
            Ok(entry) => Ok(Some(*entry)),
            Err(fault) => Err(fault),
        },
        Call::Set(index, value) => match entries.set(index as usize, value) {
            Ok(old) => Ok(Some(old)),
            Err((fault, _)) => Err(fault),
        },
        _ => Err(Fault::WrongKind),
    }
}

fn call_queue<A: Allocator>(
    entries: &mut PlainQueue<Reference, A>,
    call: Call,
) -> Result<Option<Reference>, Fault>
    ensures { CallsAsMeant result entries.old entries.new (queue_call call entries.old) }
{
    match call {
        Call::Send(value) => match entries.send(value) {
            Ok(()) => Ok(None),
            Err((fault, _)) => Err(fault),
        },
        Call::Receive => match entries.receive() {
            Ok(entry) => Ok(Some(entry)),
            Err(fault) => Err(fault),
        },
        _ => Err(Fault::WrongKind),
    }
}

fn call_dict<A: Allocator>(
    alloc: A,
    pairs: &mut PlainDict<Reference, A>,
    key: &Key<A>,
    call: KeyedCall,
) -> Result<Option<Reference>, Fault>
    ensures { CallsAsMeant result pairs.old pairs.new (dict_call key.now call pairs.old) }
{
    match call {
        KeyedCall::Put(value) => {
            let own = key.copy(alloc)?;
            match pairs.put(own, value) {
                Ok(old) => Ok(old),
                Err((fault, _)) => Err(fault),
            }
        }
        KeyedCall::Find => match pairs.find(key) {
            Ok(value) => Ok(Some(*value)),
            Err(fault) => Err(fault),
        },
        KeyedCall::Delete => match pairs.delete(key) {
            Ok(value) => Ok(Some(value)),
            Err(fault) => Err(fault),
        },
    }
}

impl<A: Allocator> Object<A> {
    /// A call on a list or a mailbox: what it answers is for a register, which is emptied where that is nothing.
    pub(crate) fn call(&mut self, call: Call) -> Result<Option<Reference>, Fault>
        ensures { CallsAsMeant result self.old self.new (object_call call self.old) }
    {
        match self {
            Object::List(entries) => call_list(entries, call),
            Object::Mailbox(entries) => call_queue(entries, call),
            _ => Err(Fault::WrongKind),
        }
    }

    /// A call on a dictionary.
    pub(crate) fn call_at(
        &mut self,
        alloc: A,
        key: &Key<A>,
        call: KeyedCall,
    ) -> Result<Option<Reference>, Fault>
        ensures { CallsAsMeant result self.old self.new (keyed_call key.now call self.old) }
    {
        match self {
            Object::Dict(pairs) => call_dict(alloc, pairs, key, call),
            _ => Err(Fault::WrongKind),
        }
    }

    /// The number of entries of a container.
    pub(crate) fn entries(&self) -> Result<usize, Fault>
        ensures counted { result ≡ entries_in self.now }
        ensures few { IfOk result (λ entries. entries ≤ MOST_ENTRIES) }
    {
        match self {
            Object::List(entries) => Ok(entries.len()),
            Object::Dict(pairs) => Ok(pairs.len()),
            Object::Mailbox(entries) => Ok(entries.len()),
            _ => Err(Fault::WrongKind),
        }
    }

    pub(crate) fn number(&self) -> Result<i64, Fault>
        ensures { result ≡ number_in self.now }
    {
        match self {
            Object::Int(number) => Ok(*number),
            _ => Err(Fault::WrongKind),
        }
    }

    /// Prints its line.
    pub(crate) fn print(&self, printed: &mut Printed<A>) -> Result<(), Fault>
        ensures printed { IfOk result (λ _. printed.new ≡ printed.old ++ (text_in self.now ++ 10 ∷ [])) }
        ensures refused { IfErr result (λ fault. fault ≡ OutOfMemory) }
    {
        match self {
            Object::Int(number) => printed.add_integer(*number),
            Object::Text(text) => printed.add_line(text.as_bytes()),
            Object::List(entries) => printed.add_counted(b"list ", entries.len()),
            Object::Dict(pairs) => printed.add_counted(b"dict ", pairs.len()),
            Object::Mailbox(entries) => printed.add_counted(b"mailbox ", entries.len()),
        }
    }
}

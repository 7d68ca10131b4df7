//! Builds an entry of an address book, writes it as a packed message, reads it again, and prints
//! it.
#![tactic(auto)]

ghost use Rattle.std.specs.Prelude.{◌≡◌, ◌<◌};
ghost use Rattle.capnp_message.specs.Built.{words_held, loans_held};
ghost use Rattle.capnp_message.specs.Placed.{StructLies};

use capnp_layout::{PointerBuilder, PointerReader, Result, StructBuilder, text};
use capnp_message::message::{Allocator, Builder, DEFAULT_READER_OPTIONS};
use capnp_message::placed::{PlacedStruct, StructPlace, StructSize};
use capnp_message::serialize_packed::{read_message, write_message};
use std::alloc::Global;

/// A person of the address book that is built, by its place: pointers to a name and a mail address.
#[derive(Drop)]
struct Person(StructPlace);

impl PlacedStruct for Person {
    ghost STRUCT_SIZE = { record { data_words = 0; pointers = 2 } };

    ghost place_of = { λ person. person.0 };

    const STRUCT_SIZE: StructSize = StructSize {
        data_words: 0,
        pointers: 2,
    };

    fn at_place(place: StructPlace) -> Person {
        Person(place)
    }
}

impl Person {
    fn set<A: Allocator>(&self, message: &mut Builder<A>, at: usize, text: &str) -> Result<()>
        requires there { StructLies (words_held message.old.memory.arena) self.now.0 }
        requires inside { at < self.now.0.pointers }
        ensures { loans_held message.new.memory.arena ≡ loans_held message.old.memory.arena }
    {
        let (memory, place) = (&mut message.memory, self.0);
        let field = StructBuilder { memory, place }.get_pointer_field(at);
        let PointerBuilder { memory, place } = field;
        PointerBuilder { memory, place }.set_text(text.as_bytes())
    }
}

fn build<A: Allocator>(message: &mut Builder<A>) -> Result<()>
    ensures { loans_held message.new.memory.arena ≡ loans_held message.old.memory.arena }
{
    let person = message.init_root::<Person>()?;
    person.set(message, 0, "Alice")?;
    let person = message.get_root::<Person>()?;
    person.set(message, 1, "alice@example.com")
}

/// Returns the person's mail address, read from a packed message.
fn relayed<A: Allocator>(alloc: Global, message: &Builder<A>) -> Result<Option<String>> {
    let mut packed = Vec::new(alloc);
    if message.memory.arena.len() > 0 {
        write_message(alloc, &mut packed, message)?;
    }
    let message = read_message(alloc, &mut packed.as_slice(), DEFAULT_READER_OPTIONS)?;
    let mut limiter = DEFAULT_READER_OPTIONS.read_limiter();
    let person = PointerReader::get_root_from_arena(&message)?.get_struct(&mut limiter, None)?;
    let mail = person.get_pointer_field(1).get_text(&mut limiter, None)?;
    Ok(text::Reader(mail).to_string(alloc)?)
}

fn main(rt: HostRuntime) -> std::io::Result<()> {
    let mut message = Builder::new_default(rt.alloc());
    let mail = build(&mut message).and(relayed(rt.alloc(), &message));
    let _heap = message.into_allocator();
    match mail {
        Ok(Some(mail)) => println!(rt; "{mail}"),
        _ => println!(rt; "no address"),
    }
}

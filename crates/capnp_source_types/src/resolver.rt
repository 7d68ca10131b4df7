//! Steps along a path.

use crate::bindings::{bound_brand, bound_type, chain_with};
use crate::chains::{
    Level, Looked, MOST_TYPES, brand_of, chain_around, chain_inside, level_of, looked_up,
};
use crate::copies::{copy_type, size_of_type};
use crate::targets::{Alias, Meaning, Target, builtin_of, type_of_builtin};
use capnp_source_names::builtins::Builtin;
use capnp_source_names::entries::Kind;
use capnp_source_names::problems::{Stop, wrong};
use capnp_source_names::table::{Found, Table};
use capnp_source_nodes::types::{BrandScope, Type};
use capnp_source_syntax::tree::{Name, Root, Span};
use std::alloc::AllocError;

/// All entries, and what is known of the aliases among them.
#[derive(Clone, Copy)]
pub struct Resolver<'r, 'a> {
    pub table: &'r Table<'a>,
    /// One for each entry.
    pub aliases: &'r [Alias],
}

/// The scope in which a path is read.
#[derive(Clone, Copy)]
pub struct Place<'p> {
    /// The entry around, by its index.
    pub scope: usize,
    /// The type parameters of the method around.
    pub parameters: &'p [Name],
    /// The struct of the method's parameters or results to which they belong; 0 if they are the
    /// method's own.
    pub parameters_of: u64,
    /// The kind of thing that the path should lead to, as a problem names it.
    pub wanted: &'static str,
}

/// Returns an index in 16 bits.
fn short(index: usize) -> u16 {
    u16::try_from(index).unwrap_or(u16::MAX)
}

impl<'r, 'a> Resolver<'r, 'a> {
    /// Returns something wrong at a place.
    pub fn wrong(&self, place: Place, span: Span, text: String) -> Stop {
        wrong(self.table.file_of(place.scope), span, text)
    }

    /// Returns something wrong at a place, by a fixed text.
    pub fn wrong_text(&self, place: Place, span: Span, text: &str) -> Stop {
        match String::from_str(self.table.alloc, text) {
            Ok(text) => self.wrong(place, span, text),
            Err(_) => Stop::Memory,
        }
    }

    /// Returns what a type is as the end of a path.
    fn target_of_type(&self, ty: &Type) -> Result<Target, AllocError> {
        let node = match ty {
            Type::Enum { id, brand } => Some((*id, brand)),
            Type::Struct { id, brand } => Some((*id, brand)),
            Type::Interface { id, brand } => Some((*id, brand)),
            _ => None,
        };
        if let Some((id, brand)) = node {
            if let Some(entry) = self.table.with_id(id) {
                let chain = chain_with(self.table, entry, brand)?;
                return Ok(Target::Entry { entry, chain });
            }
        }
        match ty {
            Type::List(items) => {
                let mut element = Vec::new(self.table.alloc);
                for item in items {
                    element.push(copy_type(item, self.table.alloc)?)?;
                }
                Ok(Target::List(element))
            }
            Type::Parameter { scope, index } => Ok(Target::Parameter {
                scope: *scope,
                index: *index,
            }),
            Type::MethodParameter { index } => Ok(Target::MethodParameter { index: *index }),
            _ => Ok(Target::Builtin(builtin_of(ty))),
        }
    }

    /// Returns what a type parameter is at the end of a chain.
    fn parameter(&self, chain: &[Level], scope: u64, index: u16) -> Result<Target, AllocError> {
        match looked_up(chain, scope, index as usize) {
            Looked::Bound(ty) => self.target_of_type(ty),
            Looked::Kept => Ok(Target::Parameter { scope, index }),
            Looked::Unbound => Ok(Target::Builtin(Builtin::AnyPointer)),
        }
    }

    /// Returns what an alias in a scope means at the end of a chain.
    fn meant(
        &self,
        meaning: &Meaning,
        chain: &[Level],
        scope: usize,
    ) -> Result<Target, AllocError> {
        let alloc = self.table.alloc;
        match meaning {
            Meaning::Entry { entry, brand } => {
                let mut front = chain_around(self.table, chain, scope)?;
                if brand.is_empty() {
                    front.push(level_of(self.table, *entry, false))?;
                    return Ok(Target::Entry {
                        entry: *entry,
                        chain: front,
                    });
                }
                let brand = bound_brand(brand, &front, alloc)?;
                let chain = chain_with(self.table, *entry, &brand)?;
                Ok(Target::Entry {
                    entry: *entry,
                    chain,
                })
            }
            Meaning::List(items) => {
                let mut element = Vec::new(alloc);
                for item in items {
                    element.push(bound_type(item, chain, alloc)?)?;
                }
                Ok(Target::List(element))
            }
            Meaning::Builtin(builtin) => Ok(Target::Builtin(*builtin)),
            Meaning::Parameter { scope, index } => self.parameter(chain, *scope, *index),
        }
    }

    /// Returns what an entry that has its name in a scope is at the end of a chain.
    fn reached(&self, entry: usize, chain: &[Level], scope: usize) -> Result<Target, Stop> {
        let is_alias = match self.table.entry(entry) {
            Some(entry) => entry.kind == Kind::Alias,
            None => false,
        };
        if !is_alias {
            let mut front = chain_around(self.table, chain, scope)?;
            front.push(level_of(self.table, entry, false))?;
            return Ok(Target::Entry {
                entry,
                chain: front,
            });
        }
        match self.aliases.get(entry) {
            Some(Alias::Means(meaning)) => Ok(self.meant(meaning, chain, scope)?),
            Some(Alias::Open) => Err(Stop::Pending(entry)),
            Some(Alias::Failed) | None => Err(Stop::Known),
        }
    }

    /// Returns that a name is unknown, with one that is close.
    fn unknown(&self, name: &Name, close: Option<&str>, place: Place) -> Stop {
        let wanted = place.wanted;
        let text = name.text.as_str();
        let message = match close {
            Some(close) => {
                format!(in self.table.alloc;
                    "no {wanted} named \"{text}\" (did you mean \"{close}\"?)"
                )
            }
            None => {
                format!(in self.table.alloc; "no {wanted} named \"{text}\" (declare or import it)")
            }
        };
        match message {
            Ok(message) => self.wrong(place, name.span, message),
            Err(_) => Stop::Memory,
        }
    }

    /// Returns what a name means at a place, if the method around has a type parameter of the name.
    fn method_parameter(&self, name: &Name, place: Place) -> Option<Target> {
        let text = name.text.as_str();
        let index = place
            .parameters
            .iter()
            .position(|p| p.text.as_str() == text)?;
        let index = short(index);
        if place.parameters_of == 0 {
            return Some(Target::MethodParameter { index });
        }
        let scope = place.parameters_of;
        Some(Target::Parameter { scope, index })
    }

    /// Returns what a name means at a place.
    fn relative(&self, name: &Name, place: Place) -> Result<Target, Stop> {
        if let Some(target) = self.method_parameter(name, place) {
            return Ok(target);
        }
        let text = name.text.as_str();
        match self.table.lookup(place.scope, text) {
            Some(Found::Entry { entry, scope }) => {
                let chain = chain_inside(self.table, place.scope)?;
                self.reached(entry, &chain, scope)
            }
            Some(Found::Parameter { scope, index }) => Ok(Target::Parameter {
                scope: self.table.id_of(scope),
                index: short(index),
            }),
            Some(Found::Builtin(Builtin::List)) => Ok(Target::List(Vec::new(self.table.alloc))),
            Some(Found::Builtin(builtin)) => Ok(Target::Builtin(builtin)),
            None => {
                let close = self.table.close_name(place.scope, text)?;
                Err(self.unknown(name, close, place))
            }
        }
    }

    /// Returns what a name of the file means.
    fn absolute(&self, name: &Name, place: Place) -> Result<Target, Stop> {
        let file = self.table.file_of(place.scope);
        let text = name.text.as_str();
        match self.table.member(file, text) {
            Some(entry) => {
                let chain = chain_inside(self.table, place.scope)?;
                self.reached(entry, &chain, file)
            }
            None => {
                let close = self.table.close_member(file, text)?;
                Err(self.unknown(name, close, place))
            }
        }
    }

    /// Returns what a path begins with.
    pub fn root(&self, root: &Root, span: Span, place: Place) -> Result<Target, Stop> {
        match root {
            Root::Relative(name) => self.relative(name, place),
            Root::Absolute(name) => self.absolute(name, place),
            Root::Import(path) => {
                let file = self.table.file_of(place.scope);
                match self.table.imported(file, path) {
                    Some(entry) => {
                        let chain = chain_inside(self.table, entry)?;
                        Ok(Target::Entry { entry, chain })
                    }
                    None => {
                        let text = "the import can't be read (name a file that is there)";
                        Err(self.wrong_text(place, span, text))
                    }
                }
            }
        }
    }

    /// Returns what has a name in what a path leads to.
    pub fn member(&self, target: Target, name: &Name, place: Place) -> Result<Target, Stop> {
        let text = name.text.as_str();
        if let Target::Entry { entry, chain } = &target {
            if let Some(inner) = self.table.member(*entry, text) {
                return self.reached(inner, chain, *entry);
            }
            let close = self.table.close_member(*entry, text)?;
            return Err(self.unknown(name, close, place));
        }
        Err(self.unknown(name, None, place))
    }

    /// Returns the brand of what a chain leads to. `Wrong` if it is too large.
    pub fn brand(
        &self,
        chain: &[Level],
        span: Span,
        place: Place,
    ) -> Result<Vec<BrandScope>, Stop> {
        match brand_of(chain, self.table.alloc)? {
            Some(brand) => Ok(brand),
            None => {
                let text = "the type has more than 1000 parts (bind fewer parameters)";
                Err(self.wrong_text(place, span, text))
            }
        }
    }

    /// Returns the type of a list, by its element's.
    fn list_type(&self, element: Vec<Type>, span: Span, place: Place) -> Result<Type, Stop> {
        match element.as_slice() {
            [
                Type::AnyPointer
                | Type::AnyStruct
                | Type::Parameter { .. }
                | Type::MethodParameter { .. },
            ] => {
                let text = "a list of any pointers is not supported (put the pointer in a struct)";
                Err(self.wrong_text(place, span, text))
            }
            [item] if size_of_type(item) > MOST_TYPES => {
                let text = "the type has more than 1000 parts (nest fewer lists)";
                Err(self.wrong_text(place, span, text))
            }
            [_] => Ok(Type::List(element)),
            _ => {
                let text = "a list has one type of element (write as in `List(Text)`)";
                Err(self.wrong_text(place, span, text))
            }
        }
    }

    /// Returns the type that a path leads to.
    pub fn type_of_target(&self, target: Target, span: Span, place: Place) -> Result<Type, Stop> {
        match target {
            Target::Entry { entry, chain } => {
                let brand = self.brand(&chain, span, place)?;
                let id = self.table.id_of(entry);
                match self.table.entry(entry).map(|entry| entry.kind) {
                    Some(Kind::Struct) => Ok(Type::Struct { id, brand }),
                    Some(Kind::Enum) => Ok(Type::Enum { id, brand }),
                    Some(Kind::Interface) => Ok(Type::Interface { id, brand }),
                    _ => {
                        let text = "this name is not that of a type (name a type)";
                        Err(self.wrong_text(place, span, text))
                    }
                }
            }
            Target::List(element) => self.list_type(element, span, place),
            Target::Builtin(builtin) => Ok(type_of_builtin(builtin)),
            Target::Parameter { scope, index } => Ok(Type::Parameter { scope, index }),
            Target::MethodParameter { index } => Ok(Type::MethodParameter { index }),
        }
    }
}

//! The members of a struct, with those of its groups and unions.

use crate::ordinals::short;
use capnp_source_layout::structs::Scope;
use capnp_source_names::problems::{Problems, Stop};
use capnp_source_syntax::tree::{
    Application, Body, Declaration, Expression, Number, Parameter, Span,
};
use std::alloc::{AllocError, Global};

/// A field, a group or a union with a name.
#[derive(Drop)]
pub struct Member<'a> {
    /// The group in which it is, by its index; 0 is the struct itself.
    pub group: usize,
    pub name: &'a str,
    pub span: Span,
    /// Its place in the source among the members of its group.
    pub code_order: u16,
    pub is_in_union: bool,
    pub annotations: &'a [Application],
    pub ordinal: Option<Number>,
    pub what: What<'a>,
}

/// The kind of a member.
#[derive(Clone, Copy)]
pub enum What<'a> {
    Field {
        ty: &'a Expression,
        default: Option<&'a Expression>,
        /// The scope of its layout, by its index.
        scope: usize,
    },
    /// A group, by its index.
    Group(usize),
    /// A union, by its index as a group and that of its layout's scope.
    Union {
        group: usize,
        scope: usize,
    },
}

/// The struct, a group or a union.
#[derive(Drop)]
pub struct Group {
    /// The member that it is, by its index; `None` of the struct.
    pub member: Option<usize>,
    /// The scope of the layout of its union, by its index.
    pub union: Option<usize>,
    /// The number of its members.
    pub count: usize,
}

/// All members of a struct, those of a group after the group.
#[derive(Drop)]
pub struct Members<'a> {
    pub members: Vec<Member<'a>>,
    pub groups: Vec<Group>,
    pub scopes: Vec<Scope>,
}

/// In what declarations are.
#[derive(Clone, Copy)]
struct Around {
    group: usize,
    scope: usize,
    /// The scope of the union, if the declarations are its members.
    union: Option<usize>,
}

/// A member as it is written.
#[derive(Clone, Copy)]
struct Written<'a> {
    name: &'a str,
    span: Span,
    annotations: &'a [Application],
    ordinal: Option<Number>,
}

impl<'a> Members<'a> {
    /// Returns a struct without members.
    fn new(alloc: Global) -> Result<Members<'a>, AllocError> {
        let mut members = Members {
            members: Vec::new(alloc),
            groups: Vec::new(alloc),
            scopes: Vec::new(alloc),
        };
        members.scopes.push(Scope::Struct)?;
        members.groups.push(Group {
            member: None,
            union: None,
            count: 0,
        })?;
        Ok(members)
    }

    /// Adds a scope of the layout, and returns its index.
    fn add_scope(&mut self, scope: Scope) -> Result<usize, AllocError> {
        let index = self.scopes.len();
        self.scopes.push(scope)?;
        Ok(index)
    }

    /// Returns the scope of a new member: one of its own if it is a member of a union.
    fn scope_in(&mut self, around: Around) -> Result<usize, AllocError> {
        match around.union {
            Some(union) => self.add_scope(Scope::Member { union }),
            None => Ok(around.scope),
        }
    }

    /// Adds a member.
    fn add_member(
        &mut self,
        written: Written<'a>,
        around: Around,
        what: What<'a>,
    ) -> Result<(), AllocError> {
        let mut code_order = 0;
        if let Some(group) = self.groups.get_mut(around.group) {
            code_order = short(group.count);
            group.count = group.count.saturating_add(1);
        }
        self.members.push(Member {
            group: around.group,
            name: written.name,
            span: written.span,
            code_order,
            is_in_union: around.union.is_some(),
            annotations: written.annotations,
            ordinal: written.ordinal,
            what,
        })?;
        Ok(())
    }

    /// Adds the group or union that the next member is, and returns its index.
    fn add_group(&mut self, union: Option<usize>) -> Result<usize, AllocError> {
        let index = self.groups.len();
        let member = Some(self.members.len());
        self.groups.push(Group {
            member,
            union,
            count: 0,
        })?;
        Ok(index)
    }

    /// Adds a named union, and returns in what its members are.
    fn add_union(&mut self, written: Written<'a>, around: Around) -> Result<Around, AllocError> {
        let outer = self.scope_in(around)?;
        let scope = self.add_scope(Scope::Union { parent: outer })?;
        let group = self.add_group(Some(scope))?;
        self.add_member(written, around, What::Union { group, scope })?;
        Ok(Around {
            group,
            scope: outer,
            union: Some(scope),
        })
    }

    /// Adds a union without a name, and returns in what its members are.
    fn add_unnamed_union(&mut self, around: Around) -> Result<Around, AllocError> {
        let scope = self.add_scope(Scope::Union {
            parent: around.scope,
        })?;
        if let Some(group) = self.groups.get_mut(around.group) {
            group.union = Some(scope);
        }
        Ok(Around {
            group: around.group,
            scope: around.scope,
            union: Some(scope),
        })
    }

    /// Adds a declaration, and returns in what its members are, if it has some.
    fn add(
        &mut self,
        declaration: &'a Declaration,
        around: Around,
    ) -> Result<Option<Around>, AllocError> {
        let mut written = Written {
            name: "",
            span: declaration.span,
            annotations: &declaration.annotations,
            ordinal: None,
        };
        if let Some(name) = &declaration.name {
            written.name = name.text.as_str();
            written.span = name.span;
        }
        match &declaration.body {
            Body::Field {
                ordinal,
                ty,
                default,
            } => {
                written.ordinal = Some(*ordinal);
                let scope = self.scope_in(around)?;
                let default = default.as_ref();
                self.add_member(written, around, What::Field { ty, default, scope })?;
                Ok(None)
            }
            Body::Group => {
                let scope = self.scope_in(around)?;
                let group = self.add_group(None)?;
                self.add_member(written, around, What::Group(group))?;
                let union = None;
                Ok(Some(Around {
                    group,
                    scope,
                    union,
                }))
            }
            Body::Union { ordinal } => {
                if declaration.name.is_none() {
                    return Ok(Some(self.add_unnamed_union(around)?));
                }
                written.ordinal = *ordinal;
                Ok(Some(self.add_union(written, around)?))
            }
            _ => Ok(None),
        }
    }
}

/// Returns what is wrong with a group or a union.
fn fault_of_group(declaration: &Declaration, around: Around) -> Option<&'static str> {
    match declaration.body {
        Body::Group if declaration.members.is_empty() => {
            Some("a group has at least one member (add one)")
        }
        Body::Union { .. } if declaration.members.len() < 2 => {
            Some("a union has at least two members (add one)")
        }
        Body::Union { .. } if declaration.name.is_none() && around.union.is_some() => {
            Some("a union in a union has a name (write `name :union`)")
        }
        _ => None,
    }
}

/// Adds a declaration and its members.
fn gather<'a>(
    declaration: &'a Declaration,
    members: &mut Members<'a>,
    problems: &mut Problems,
    file: usize,
    around: Around,
    alloc: Global,
) -> Result<(), Stop> {
    if let Some(text) = fault_of_group(declaration, around) {
        problems.tell(file, declaration.span, String::from_str(alloc, text)?)?;
    }
    if let Some(inner) = members.add(declaration, around)? {
        for member in &declaration.members {
            gather(member, members, problems, file, inner, alloc)?;
        }
    }
    Ok(())
}

/// Returns the members of a struct. What is wrong with its groups and unions is noted.
pub fn members_of<'a>(
    alloc: Global,
    file: usize,
    declaration: &'a Declaration,
    problems: &mut Problems,
) -> Result<Members<'a>, Stop> {
    let mut members = Members::new(alloc)?;
    let around = Around {
        group: 0,
        scope: 0,
        union: None,
    };
    for member in &declaration.members {
        gather(member, &mut members, problems, file, around, alloc)?;
    }
    Ok(members)
}

/// Returns the members of the struct of a method's parameters or results. Their ordinals are their
/// places.
pub fn members_of_parameters<'a>(
    alloc: Global,
    parameters: &'a [Parameter],
) -> Result<Members<'a>, AllocError> {
    let mut members = Members::new(alloc)?;
    let around = Around {
        group: 0,
        scope: 0,
        union: None,
    };
    let mut value: u64 = 0;
    for parameter in parameters {
        let span = parameter.name.span;
        let written = Written {
            name: parameter.name.text.as_str(),
            span,
            annotations: &parameter.annotations,
            ordinal: Some(Number { value, span }),
        };
        let what = What::Field {
            ty: &parameter.ty,
            default: parameter.default.as_ref(),
            scope: 0,
        };
        members.add_member(written, around, what)?;
        value = value.saturating_add(1);
    }
    Ok(members)
}

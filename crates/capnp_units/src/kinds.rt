//! The kinds of refusals: one enumeration for the layout, messages, schemas and calls.
ghost use Rattle.std.specs.Prelude.{◌≡◌, Some};
ghost use Rattle.capnp_model.specs.Kinds.{kind_name};
ghost use Rattle.capnp_units.specs.Errors.{kind_of};

use std::fmt;

/// The reason why a call was refused.
#[derive(Clone, Copy, Debug, PartialEq, Eq, thiserror::Error)]
pub enum ErrorKind {
    /// An object, a landing pad or a segment isn't there, or elements are past a composite list's
    /// words.
    OutOfBounds,
    /// A far pointer is in the place of a landing pad's describing word.
    MalformedFarPointer,
    /// A struct, list, text or data was expected, or a tag doesn't have the form of a struct
    /// pointer.
    WrongPointerKind,
    /// A list's element size isn't accepted by the function that reads it.
    WrongElementSize,
    /// The value is nested deeper than the limit.
    NestingLimitExceeded,
    /// Following the value costs more words than the limit.
    ReadLimitExceeded,
    /// A canonical copy met a capability.
    CapabilityInCanonical,
    /// A text doesn't end with a zero byte.
    TextWithoutZeroByte,
    /// A pointer of the fourth form is not a capability.
    UnknownPointerType,
    /// A list count, composite words or a message's words would exceed 2^29 - 1.
    SizeOverflow,
    /// An allocation was refused.
    OutOfMemory,
    /// A message's segment count isn't 1 to 511.
    InvalidNumberOfSegments,
    /// The input ended within a message, or within the bytes that were requested.
    FailedToFillTheWholeBuffer,
    /// Packed input ended within a word.
    PrematureEndOfPackedInput,
    /// A run of packed words passed the end of the requested words.
    PackedInputDidNotEndCleanlyOnASegmentBoundary,
    /// A message has more words than the limit.
    MessageTooLarge,
    /// A buffer or a slice that is written to is too short.
    BufferNotLargeEnough,
    /// No byte was left, and a message was expected.
    PrematureEndOfFile,
    /// A flat slice or buffer ends before its message.
    MessageEndsPrematurely,
    /// A source or a sink failed.
    Device,
    /// No field has this name.
    FieldNotFound,
    /// A value doesn't fit the type.
    TypeMismatch,
    /// A field's default isn't of its type.
    FieldAndDefaultMismatch,
    /// A struct was expected.
    NotAStruct,
    /// A group field's type is not a struct.
    GroupFieldButTypeIsNotStruct,
    /// `init` was called for another field.
    InitIsOnlyValidForStructAndAnyPointerFields,
    /// `initn` was called for another field.
    InitnIsOnlyValidForListTextOrDataFields,
    /// A list, text or data was expected.
    ExpectedAListOrBlob,
    /// The element is an untyped pointer.
    ListAnyPointerNotSupported,
    /// The element is a capability.
    ListCapabilityNotSupported,
    /// An untyped pointer can't hold a plain value.
    CannotSetAnyPointerFieldToAPrimitiveValue,
    /// A capability can't be set here.
    SettingDynamicCapabilitiesIsUnsupported,
    /// The path leads through a union member that isn't active.
    InactiveMember,
    /// The path's index is past the list.
    IndexOutOfRange,
    /// The path's step doesn't fit the type there.
    WrongStep,
    /// The path leads through a pointer that can't be read as its type.
    UnreadablePointer,
    /// `clear` was called for an element.
    ClearNeedsAField,
}

impl ErrorKind {
    /// Returns the kind's name, as logs and fault lines have it.
    pub fn name(self) -> &'static str
        ensures { result.now ≡ kind_name (kind_of self) }
    {
        match self {
            ErrorKind::OutOfBounds => "OutOfBounds",
            ErrorKind::MalformedFarPointer => "MalformedFarPointer",
            ErrorKind::WrongPointerKind => "WrongPointerKind",
            ErrorKind::WrongElementSize => "WrongElementSize",
            ErrorKind::NestingLimitExceeded => "NestingLimitExceeded",
            ErrorKind::ReadLimitExceeded => "ReadLimitExceeded",
            ErrorKind::CapabilityInCanonical => "CapabilityInCanonical",
            ErrorKind::TextWithoutZeroByte => "TextWithoutZeroByte",
            ErrorKind::UnknownPointerType => "UnknownPointerType",
            ErrorKind::SizeOverflow => "SizeOverflow",
            ErrorKind::OutOfMemory => "OutOfMemory",
            ErrorKind::InvalidNumberOfSegments => "InvalidNumberOfSegments",
            ErrorKind::FailedToFillTheWholeBuffer => "FailedToFillTheWholeBuffer",
            ErrorKind::PrematureEndOfPackedInput => "PrematureEndOfPackedInput",
            ErrorKind::PackedInputDidNotEndCleanlyOnASegmentBoundary =>
                "PackedInputDidNotEndCleanlyOnASegmentBoundary",
            ErrorKind::MessageTooLarge => "MessageTooLarge",
            ErrorKind::BufferNotLargeEnough => "BufferNotLargeEnough",
            ErrorKind::PrematureEndOfFile => "PrematureEndOfFile",
            ErrorKind::MessageEndsPrematurely => "MessageEndsPrematurely",
            ErrorKind::Device => "Device",
            ErrorKind::FieldNotFound => "FieldNotFound",
            ErrorKind::TypeMismatch => "TypeMismatch",
            ErrorKind::FieldAndDefaultMismatch => "FieldAndDefaultMismatch",
            ErrorKind::NotAStruct => "NotAStruct",
            ErrorKind::GroupFieldButTypeIsNotStruct => "GroupFieldButTypeIsNotStruct",
            ErrorKind::InitIsOnlyValidForStructAndAnyPointerFields =>
                "InitIsOnlyValidForStructAndAnyPointerFields",
            ErrorKind::InitnIsOnlyValidForListTextOrDataFields =>
                "InitnIsOnlyValidForListTextOrDataFields",
            ErrorKind::ExpectedAListOrBlob => "ExpectedAListOrBlob",
            ErrorKind::ListAnyPointerNotSupported => "ListAnyPointerNotSupported",
            ErrorKind::ListCapabilityNotSupported => "ListCapabilityNotSupported",
            ErrorKind::CannotSetAnyPointerFieldToAPrimitiveValue =>
                "CannotSetAnyPointerFieldToAPrimitiveValue",
            ErrorKind::SettingDynamicCapabilitiesIsUnsupported =>
                "SettingDynamicCapabilitiesIsUnsupported",
            ErrorKind::InactiveMember => "InactiveMember",
            ErrorKind::IndexOutOfRange => "IndexOutOfRange",
            ErrorKind::WrongStep => "WrongStep",
            ErrorKind::UnreadablePointer => "UnreadablePointer",
            ErrorKind::ClearNeedsAField => "ClearNeedsAField",
        }
    }
}

/// Writes the kind's name.
impl fmt::Display for ErrorKind {
    ghost output = { λ k. Some (kind_name (kind_of k)) };

    fn fmt<W: fmt::Write>(&self, f: &mut fmt::Formatter<W>) -> fmt::Result {
        f.write_str(self.name())
    }
}

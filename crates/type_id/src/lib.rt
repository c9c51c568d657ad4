// ADS data type identifiers.
#![tactic(auto)]

ghost use Rattle.std.specs.Prelude.{◌≡◌};
ghost use Rattle.type_id.specs.TypeId.{id_of, number_of};

// Identifies the machine type of a symbol or the base or element type of a composite. For structs, pointers and
// references this is typically BigType; for arrays it identifies the element type; for aliases and enums it identifies
// the underlying primitive.
#[derive(Clone, Copy)]
pub enum AdsTypeId {
    // Void or empty (0).
    Void,
    // INT: signed 16-bit integer (2).
    Int16,
    // DINT: signed 32-bit integer (3).
    Int32,
    // REAL: 32-bit IEEE 754 float (4).
    Real32,
    // LREAL: 64-bit IEEE 754 float (5).
    Real64,
    // SINT: signed 8-bit integer (16).
    Int8,
    // USINT or BYTE: unsigned 8-bit integer (17).
    UInt8,
    // UINT or WORD: unsigned 16-bit integer (18).
    UInt16,
    // UDINT or DWORD: unsigned 32-bit integer (19).
    UInt32,
    // LINT: signed 64-bit integer (20).
    Int64,
    // ULINT or LWORD: unsigned 64-bit integer (21).
    UInt64,
    // STRING(n): fixed-length string (30).
    String,
    // WSTRING(n): fixed-length wide string (31).
    WString,
    // 80-bit extended precision float (32).
    Real80,
    // BIT: single bit (33). Also used for BOOL.
    Bit,
    // Internal use only: the number of types (34).
    MaxTypes,
    // Large or composite type: used for structs, references and aliases (65).
    BigType,
    // An unknown or vendor-specific type id.
    Unknown(u32),
}

impl AdsTypeId {
    // The type id of a number, as it stands in memory.
    pub fn from_u32(value: u32) -> AdsTypeId
        ensures { result ≡ id_of value }
    {
        match value {
            0 => AdsTypeId::Void,
            2 => AdsTypeId::Int16,
            3 => AdsTypeId::Int32,
            4 => AdsTypeId::Real32,
            5 => AdsTypeId::Real64,
            16 => AdsTypeId::Int8,
            17 => AdsTypeId::UInt8,
            18 => AdsTypeId::UInt16,
            19 => AdsTypeId::UInt32,
            20 => AdsTypeId::Int64,
            21 => AdsTypeId::UInt64,
            30 => AdsTypeId::String,
            31 => AdsTypeId::WString,
            32 => AdsTypeId::Real80,
            33 => AdsTypeId::Bit,
            34 => AdsTypeId::MaxTypes,
            65 => AdsTypeId::BigType,
            _ => AdsTypeId::Unknown(value),
        }
    }

    // The number of a type id.
    pub fn to_u32(self) -> u32
        ensures { result ≡ number_of self }
    {
        match self {
            AdsTypeId::Void => 0,
            AdsTypeId::Int16 => 2,
            AdsTypeId::Int32 => 3,
            AdsTypeId::Real32 => 4,
            AdsTypeId::Real64 => 5,
            AdsTypeId::Int8 => 16,
            AdsTypeId::UInt8 => 17,
            AdsTypeId::UInt16 => 18,
            AdsTypeId::UInt32 => 19,
            AdsTypeId::Int64 => 20,
            AdsTypeId::UInt64 => 21,
            AdsTypeId::String => 30,
            AdsTypeId::WString => 31,
            AdsTypeId::Real80 => 32,
            AdsTypeId::Bit => 33,
            AdsTypeId::MaxTypes => 34,
            AdsTypeId::BigType => 65,
            AdsTypeId::Unknown(value) => value,
        }
    }
}

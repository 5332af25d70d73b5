//! Numbers, texts, flags and digests in a line.
ghost use Rattle.std.specs.Prelude.{◌<◌, ◌^◌, ⊤, refl};
ghost use Rattle.std.specs.Option.{option_and_then};
ghost use Rattle.serde_json.specs.Data.{string, boolean};
ghost use Rattle.serde_json.specs.Find.{as_str, as_bool};
ghost use Rattle.line_parts.specs.Finding.{whole, number_in, signed, signed_in, IsInt, digest_data, digest_in, IsDigest};
ghost use Rattle.line_parts.specs.Numbers.{number_reads_back, zero_le, signed_reads_back, signed_has_no_float, digest_reads_back};

use crate::LineFault;
use crate::line_field::{LineField, NotNull};
use dimensions::Text;
use hex::FromHex;
use serde_json::Value;
use std::alloc::{AllocError, Global};

impl LineField for u32 {
    ghost data_of = { whole };

    ghost value_in = { number_in (2 ^ 32) };

    ghost Holds = { λ n. n < 2 ^ 32 };

    ghost levels = { 0 };

    fn to_value(&self, _alloc: Global) -> Result<Value, AllocError> {
        Ok(Value::from(*self))
    }

    #[tactic(auto, unfolding(crate::specs::Finding::number_in))]
    fn from_value(_alloc: Global, value: &Value) -> Result<u32, LineFault> {
        match value.as_u64() {
            Some(number) => {
                if number < 1 << 32 {
                    Ok(number as u32)
                } else {
                    Err(LineFault::NotALine)
                }
            }
            None => Err(LineFault::NotALine),
        }
    }

    ghost reads_back = { number_reads_back (2 ^ 32) };

    ghost has_no_float = { λ n. refl };

    ghost within_levels = { λ n. zero_le 0 };
}

impl LineField for Text {
    ghost data_of = { string };

    ghost value_in = { as_str };

    ghost Holds = { λ t. ⊤ };

    ghost levels = { 0 };

    fn to_value(&self, alloc: Global) -> Result<Value, AllocError> {
        Value::try_from_str(alloc, self.as_str())
    }

    fn from_value(alloc: Global, value: &Value) -> Result<Text, LineFault> {
        match value.as_str() {
            Some(text) => Ok(Text::from_str(alloc, text)?),
            None => Err(LineFault::NotALine),
        }
    }

    ghost reads_back = { λ t h. refl };

    ghost has_no_float = { λ t. refl };

    ghost within_levels = { λ t. zero_le 0 };
}

impl LineField for u64 {
    ghost data_of = { whole };

    ghost value_in = { number_in (2 ^ 64) };

    ghost Holds = { λ n. n < 2 ^ 64 };

    ghost levels = { 0 };

    fn to_value(&self, _alloc: Global) -> Result<Value, AllocError> {
        Ok(Value::from(*self))
    }

    #[tactic(auto, unfolding(crate::specs::Finding::number_in))]
    fn from_value(_alloc: Global, value: &Value) -> Result<u64, LineFault> {
        match value.as_u64() {
            Some(number) => Ok(number),
            None => Err(LineFault::NotALine),
        }
    }

    ghost reads_back = { number_reads_back (2 ^ 64) };

    ghost has_no_float = { λ n. refl };

    ghost within_levels = { λ n. zero_le 0 };
}

impl LineField for i32 {
    ghost data_of = { signed };

    ghost value_in = { signed_in };

    ghost Holds = { IsInt };

    ghost levels = { 0 };

    fn to_value(&self, _alloc: Global) -> Result<Value, AllocError> {
        Ok(Value::from(*self))
    }

    #[tactic(auto, unfolding(crate::specs::Finding::signed_in))]
    fn from_value(_alloc: Global, value: &Value) -> Result<i32, LineFault> {
        let Some(number) = value.as_i64() else {
            return Err(LineFault::NotALine);
        };
        if number < -(1 << 31) || number >= 1 << 31 {
            return Err(LineFault::NotALine);
        }
        Ok(number as i32)
    }

    ghost reads_back = { signed_reads_back };

    ghost has_no_float = { signed_has_no_float };

    ghost within_levels = { λ z. zero_le 0 };
}

impl LineField for bool {
    ghost data_of = { boolean };

    ghost value_in = { as_bool };

    ghost Holds = { λ b. ⊤ };

    ghost levels = { 0 };

    fn to_value(&self, _alloc: Global) -> Result<Value, AllocError> {
        Ok(Value::Bool(*self))
    }

    fn from_value(_alloc: Global, value: &Value) -> Result<bool, LineFault> {
        value.as_bool().ok_or(LineFault::NotALine)
    }

    ghost reads_back = { λ b h. refl };

    ghost has_no_float = { λ b. refl };

    ghost within_levels = { λ b. zero_le 0 };
}

/// A digest of 32 bytes, in lower-case hexadecimal.
impl LineField for [u8; 32] {
    ghost data_of = { digest_data };

    ghost value_in = { digest_in };

    ghost Holds = { IsDigest };

    ghost levels = { 0 };

    fn to_value(&self, alloc: Global) -> Result<Value, AllocError> {
        Ok(Value::String(hex::encode(alloc, self.as_slice())?))
    }

    #[tactic(auto, unfolding(crate::specs::Finding::digest_in))]
    fn from_value(_alloc: Global, value: &Value) -> Result<[u8; 32], LineFault> {
        let Some(text) = value.as_str() else {
            return Err(LineFault::NotALine);
        };
        match <[u8; 32] as FromHex>::from_hex(text) {
            Ok(digest) => Ok(digest),
            Err(_) => Err(LineFault::NotALine),
        }
    }

    ghost reads_back = { digest_reads_back };

    ghost has_no_float = { λ d. refl };

    ghost within_levels = { λ d. zero_le 0 };
}

impl NotNull for [u8; 32] {
    ghost never_null = { λ d. refl };
}

impl NotNull for u64 {
    ghost never_null = { λ n. refl };
}

impl NotNull for u32 {
    ghost never_null = { λ n. refl };
}

impl NotNull for Text {
    ghost never_null = { λ t. refl };
}

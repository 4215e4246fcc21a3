//! Numbers, texts and options as they are saved.
ghost use Rattle.std.specs.Prelude.{◌≡◌, ◌++◌, map, option_map, string_bytes, IfSome, OnOk};
ghost use Rattle.dav_core.specs.ElementView.{attribute_bytes};
ghost use Rattle.dav_saved.specs.Spelling.{number, sized, optional, pair, many};
ghost use Rattle.dav_saved.specs.Trees.{IsText};

use std::alloc::AllocError;

/// Adds a number. After an error a part of it may have been added, as after that of any `put`.
#[tactic(auto, unfolding(crate::specs::Spelling::number))]
pub fn put_number(out: &mut Vec<u8>, n: u64) -> Result<(), AllocError>
    ensures { OnOk result (out.new.items ≡ out.old.items ++ number n) }
{
    out.extend_from_slice(&n.to_be_bytes())
}

/// Adds bytes, with their length.
pub fn put_bytes(out: &mut Vec<u8>, bytes: &[u8]) -> Result<(), AllocError>
    ensures { OnOk result (out.new.items ≡ out.old.items ++ sized bytes.now) }
{
    put_number(out, bytes.len() as u64)?;
    out.extend_from_slice(bytes)
}

/// Adds a text, with its length.
#[tactic(auto, using(crate::proofs::Texts::text_fits))]
pub fn put_text(out: &mut Vec<u8>, text: &str) -> Result<(), AllocError>
    ensures added { OnOk result (out.new.items ≡ out.old.items ++ sized text.now) }
    ensures saveable { OnOk result (IsText text.now) }
{
    put_bytes(out, text.as_bytes())?;
    Ok(())
}

/// Adds a text that may be missing.
pub fn put_optional(out: &mut Vec<u8>, text: &Option<String>) -> Result<(), AllocError>
    ensures added { OnOk result (out.new.items
        ≡ out.old.items ++ optional (option_map string_bytes text.now)) }
    ensures saveable { OnOk result (IfSome (option_map string_bytes text.now) IsText) }
{
    match text {
        Some(text) => {
            out.push(1)?;
            put_text(out, text)?;
            Ok(())
        }
        None => {
            out.push(0)?;
            Ok(())
        }
    }
}

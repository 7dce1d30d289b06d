// Codes by their mode.
ghost use Rattle.std.specs.Prelude.{◌≡◌};
ghost use Rattle.profiles.specs.Modes.{marks, is_sc_access, is_sc_fence};

use graph::code::{Code, FenceMode, ReadMode, WriteMode};

/// An access of mode sc, rel or acq. The initial writes are relaxed, so none of them is one.
pub fn is_marking(code: Code) -> bool
    ensures { result ≡ marks code }
{
    matches!(
        code,
        Code::Read(ReadMode::Acq | ReadMode::Sc) | Code::Write(WriteMode::Rel | WriteMode::Sc)
    )
}

/// An access of mode sc.
pub fn is_sc_access(code: Code) -> bool
    ensures { result ≡ is_sc_access code }
{
    matches!(code, Code::Read(ReadMode::Sc) | Code::Write(WriteMode::Sc))
}

/// A fence of mode sc.
pub fn is_sc_fence(code: Code) -> bool
    ensures { result ≡ is_sc_fence code }
{
    matches!(code, Code::Fence(FenceMode::Sc))
}

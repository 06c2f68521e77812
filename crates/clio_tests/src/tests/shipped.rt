// The row tests that come with the program.
ghost use Rattle.std.specs.Prelude.{◌≡◌, IfOk, map};
ghost use Rattle.dx_base.specs.Members.{◌∈◌};
ghost use Rattle.dx_funcs.specs.Shipped.{shipped_passes, shipped_row_tests};

use dx_base::Text;
use dx_funcs::check_row;
use std::alloc::AllocError;

/// Whether a text passes a row test that comes with the program.
pub(crate) fn passes(code: u32, text: &Text) -> Result<bool, AllocError>
    requires { code ∈ map (λ t. t.code) shipped_row_tests }
    ensures { IfOk result (λ b. b ≡ shipped_passes code text.now) }
{
    check_row(code, text)
}

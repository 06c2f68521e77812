// The status and the message of an ending.
ghost use Rattle.std.specs.Prelude.{◌≡◌, IfOk};
ghost use Rattle.clio_ending.specs.Ending.{status_of};
ghost use Rattle.clio_ending.specs.Message.{message_of};

use crate::ending::Ending;
use crate::letting_go::let_go;
use crate::messages::message;
use dx_base::Text;
use std::alloc::{AllocError, Global};

/// The exit status of an ending, and its message if there is memory for it. The ending is let go.
pub fn status_and_message(alloc: Global, ending: Ending) -> (u8, Result<Text, AllocError>)
    ensures status { result.0 ≡ status_of ending }
    ensures message { IfOk result.1 (λ t. t ≡ message_of ending) }
{
    let text = message(alloc, &ending);
    let status = ending.status();
    let_go(ending);
    (status, text)
}

// What a conversation needs of a served array.
ghost use Rattle.std.specs.Prelude.{◌≡◌, []};
ghost use Rattle.ar_conversation.specs.Controller.{OperatorAnswers};
ghost use Rattle.ar_conversation.specs.Orders.{IsOperatorOrder};

use crate::OperatorOrder;
use std::alloc::AllocError;

/// A served array, as an operator may use it. Each order is answered at one moment, under the array's lock.
pub trait Controller {
    /// What an answer may be, as the controller specifies it: the controller before, the order, whether there was
    /// memory for the answer, its bytes, the controller after.
    ghost answers: { OperatorAnswers Self };

    /// Executes an order and writes its answer to `out`, whole lines of text. If it fails, the bytes in `out` are
    /// unspecified. (`Stop` has no answer here: whoever owns the streams answers it once the service has ended.)
    fn answer(&mut self, order: OperatorOrder, out: &mut Vec<u8>) -> Result<(), AllocError>
        requires allowed { IsOperatorOrder order }
        requires empty { out.old.items ≡ [] }
        ensures { answers self.old order result out.new.items self.new };
}

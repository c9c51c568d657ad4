// The plan of a save, over our book and the controller's: one call for all asks and adds.
ghost use Rattle.gateway.specs.Calls.{PlanGiven, PlanNamedGiven};

use gateway_plan_answers::give_plan;
use plan_named::plan_save_named;
use plan_save::plan_save;

// Completes our book from the controller's, and then 1 where the memory must be read before it is written, else 0; and our book's length.
#[unsafe(no_mangle)]
pub extern "C" fn gateway_plan_save(
    buffer: &mut [u8],
    len: usize,
    controller: &[u8],
    theirs: usize,
    width: u8,
    root: u64,
    scratch: &mut [u32],
    index: &mut [u32],
    values: &mut [u64],
) -> u8
    ensures { PlanGiven buffer.old len controller.now theirs width root scratch.old index.old values.old result buffer.new scratch.new index.new values.new }
{
    let plan = plan_save(buffer, len, controller, theirs, width, root, scratch, index);
    give_plan(plan, values)
}

// The same for the root of that name, which our book may lack, as a book of no bytes does: it too is added from the controller's book then.
#[unsafe(no_mangle)]
pub extern "C" fn gateway_plan_save_named(
    buffer: &mut [u8],
    len: usize,
    controller: &[u8],
    theirs: usize,
    width: u8,
    name: &[u8],
    scratch: &mut [u32],
    index: &mut [u32],
    values: &mut [u64],
) -> u8
    ensures { PlanNamedGiven buffer.old len controller.now theirs width name.now scratch.old index.old values.old result buffer.new scratch.new index.new values.new }
{
    let plan = plan_save_named(buffer, len, controller, theirs, width, name, scratch, index);
    give_plan(plan, values)
}

// What encoders answer, seen from their beginning.
ghost use Rattle.draw_encoder.specs.Begins.{AnswersAsBegun};
ghost use Rattle.draw_encoder.specs.QueueEvents.{OfQueues, PushIs, PopIs, PassIs, TableIs, NewIs, NewIsKept, IsPushed, IsPopped, IsAdmitted};

use hold_table::laws::steps_are_events;

/// A call is answered by the words that it loads, while other threads create and destroy. Where the serial of each handle that it asks
/// for was given before the encoder began, the answer is the one by the words at that beginning: the same state after it,
/// or the same refusal, in which a stale handle's word may be another.
pub fn answers_as_begun()
    ensures { AnswersAsBegun }
{}

/// Each step of the bundle queue is the event of the schedule that its kind stands for, or none: a push is End, a pop is Collect, and a
/// new pass is none. The hold table and the queue stand for one state, in which the bundles that wait are those in the queue, in its order.
/// After a step they stand for the state after the event, which is allowed there. A push asks for it that the seat of its bundle records,
/// which is so of the seat that an encoder ends with. The queue's rule says that of each seat as many bundles are in it as were put in
/// and not taken out.
pub fn queue_steps_are_events()
    ensures new { NewIs }
    ensures new_queue { NewIsKept }
    ensures push { OfQueues PushIs }
    ensures pop { OfQueues PopIs }
    ensures pass { OfQueues PassIs }
    ensures table { TableIs }
    ensures pushed { IsPushed }
    ensures popped { IsPopped }
    ensures admitted { IsAdmitted }
{
    steps_are_events();
}

//! Receivers of messages.

ghost use Rattle.std.specs.Prelude.{◌≡◌, ◌<◌, length, IfOk, IfSome};
ghost use Rattle.msg_image.specs.Parts.{class_total};
ghost use Rattle.msg_image.specs.Sound.{IsOf};
ghost use Rattle.msg_eval.specs.Receiver.{receiver_class, new_receiver};

use crate::operation::are_same;
use crate::reply::SendFault;
use msg_image::Image;
use msg_names::{ClassRef, Value};

// The class in which a message to a value is looked up.
pub(crate) fn class_of(image: &Image, v: Value) -> Option<ClassRef>
    requires { IsOf image.now v }
    ensures value { result ≡ receiver_class image.now v }
    ensures listed { IfSome result (λ c. c.class < class_total image.now) }
{
    match v {
        Value::Object(object) => Some(ClassRef {
            class: image.object_class(object),
            meta: false,
        }),
        Value::Class(class) => Some(ClassRef { class, meta: true }),
        Value::Number(_) | Value::Sel(_) | Value::Nil => None,
    }
}

// The new receiver and its class, if this is what the receiver returned when it was asked for a
// target.
pub(crate) fn new_receiver(
    image: &Image,
    me: Value,
    unrecognized: SendFault,
    target: Value,
) -> Result<(Value, ClassRef), SendFault>
    requires { IsOf image.now target }
    ensures value { result ≡ new_receiver image.now me unrecognized target }
    ensures listed { IfOk result (λ r. IsOf image.now r.0 × (r.1.class < class_total image.now)) }
{
    if let Value::Nil = target {
        return Err(unrecognized);
    }
    if are_same(me, target) {
        return Err(unrecognized);
    }
    match class_of(image, target) {
        Some(class) => {
            let pair = (target, class);
            Ok(pair)
        }
        None => Err(SendFault::TargetNotAnObject),
    }
}

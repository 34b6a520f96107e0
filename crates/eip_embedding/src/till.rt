ghost use Rattle.std.specs.Prelude.{◌≡◌, ◌↔◌, true, IsOk, OnOk, OnErr, IsErrOf, IfErr};
ghost use Rattle.std.specs.Option.{SomeIff};
ghost use Rattle.eip_text.specs.Causes.{Rises};
ghost use Rattle.eip_frames.specs.Fits.{may_exist};
ghost use Rattle.eip_endpoint.specs.Content.{extended};
ghost use Rattle.eip_endpoint.specs.Calls.{made, failures};
ghost use Rattle.eip_line.specs.Lanes.{untold_calls};
ghost use Rattle.eip_embedding.specs.Tills.{IsAmount, sum_with};

use eip_endpoint::{Endpoint, SendFault};
use eip_exchange::Message;
use eip_frames::Target;
use eip_text::read_i64;

/// A till: each message that is sent to it is an amount, and it keeps their sum. It tells no calls.
#[derive(Drop)]
pub struct Till {
    pub sum: i64,
    /// How many messages were no amount, or one too many for the sum.
    pub faults: u64,
}

impl Endpoint for Till {
    ghost calls = { λ _. untold_calls };

    ghost lane_faults = { λ t. t.faults };

    /// Adds the whole number that the body says. `Failed` comes exactly where it says none, or where the sum with it is no number of
    /// 64 bits, and the sum stays then. No other fault comes.
    fn send(&mut self, _target: &Target, message: &Message) -> Result<(), SendFault>
        ensures calls { untold_calls ≡ extended untold_calls (made _target.now message.now result) }
        ensures faults { Rises (failures (made _target.now message.now result)) self.old.faults self.new.faults }
        ensures exists { IsErrOf result SendFault.Exists → may_exist _target.now ≡ true }
        ensures taken { IsOk result ↔ IsAmount self.old.sum message.now.body }
        ensures sum { OnOk result (self.new.sum ≡ sum_with self.old.sum message.now.body) }
        ensures kept { OnErr result (self.new.sum ≡ self.old.sum) }
        ensures failed { IfErr result (λ e. e ≡ SendFault.Failed) }
    {
        let Some(sum) = sum_with(self.sum, message.body.bytes()) else {
            self.faults = self.faults.saturating_add(1);
            return Err(SendFault::Failed);
        };
        self.sum = sum;
        Ok(())
    }
}

/// The sum with the amount that a body says.
fn sum_with(sum: i64, body: &[u8]) -> Option<i64>
    ensures { SomeIff result (IsAmount sum body.now) (sum_with sum body.now) }
{
    sum.checked_add(read_i64(body)?)
}

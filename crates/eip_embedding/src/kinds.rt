ghost use Rattle.eip_line.specs.Lanes.{untold_calls};
ghost use Rattle.eip_embedding.specs.Kinds.{lane_faults_of, AnswersAs};

use crate::seal::Seal;
use crate::till::Till;
use eip_endpoint::{Endpoint, Files, SendFault};
use eip_exchange::Message;
use eip_file::FileLane;
use eip_frames::Target;
use eip_processor::{ProcessFault, Processor};
use eip_samples::SampleProcessor;

// The program's lanes and processors, each kind as one type.

/// A lane of the program.
#[derive(Drop)]
pub enum OwnLane<F> {
    /// Writes files.
    Files(FileLane<F>),
    /// Sums amounts.
    Till(Till),
}

impl<F: Files + Send + Drop> Endpoint for OwnLane<F> {
    ghost calls = { λ _. untold_calls };

    ghost lane_faults = { λ l. lane_faults_of F.files_faults l };

    fn send(&mut self, target: &Target, message: &Message) -> Result<(), SendFault> {
        match self {
            OwnLane::Files(lane) => lane.send(target, message),
            OwnLane::Till(till) => till.send(target, message),
        }
    }
}

/// A processor of the program.
#[derive(Drop)]
pub enum OwnProcessor {
    /// One of those that the shipped program has too.
    Sample(SampleProcessor),
    /// Seals messages.
    Seal(Seal),
}

impl Processor for OwnProcessor {
    ghost relates = { AnswersAs };

    fn process(&self, message: &Message) -> Result<Message, ProcessFault> {
        match self {
            OwnProcessor::Sample(sample) => sample.process(message),
            OwnProcessor::Seal(seal) => seal.process(message),
        }
    }
}

// Standard input handed to the reader as it comes; at its end the cable is closed.
use cable_lines::state::State;
use reader::fault::Refusal;
use reader::second::Weighted;
use text::buffer::Out;
use text::replies::{Numbered, put_second};
use text::serving::{Program, Taken};

#[derive(Drop)]
pub struct Cable {
    pub state: State,
}

impl Program for Cable {
    type Answer = Result<Weighted, Refusal>;

    fn take(&mut self, piece: &[u8]) -> Taken<Result<Weighted, Refusal>> {
        let t = cable_lines::take(&mut self.state, piece);
        Taken {
            answer: t.answer,
            taken: t.taken,
        }
    }

    fn close(&mut self) -> Option<Result<Weighted, Refusal>> {
        cable_lines::close(&mut self.state).answer
    }

    fn put(&mut self, answer: Result<Weighted, Refusal>, out: &mut Out, at: usize) -> usize {
        put_second(out, at, answer.map_err(Numbered::from))
    }
}

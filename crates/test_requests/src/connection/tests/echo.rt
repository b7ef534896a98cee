//! A site that says back what it is asked.

ghost use Rattle.std.specs.Prelude.{⊤};

use http::StatusCode;
use std::alloc::{AllocError, Global};
use sv_model::{Cause, Input, Moment, Output, Param, Request, Response, Sequence, Site, StepFault};

/// Answers with the path, but at some paths in another way, and keeps what it was asked last.
#[derive(Drop)]
pub(super) struct Echo {
    pub(super) alloc: Global,
    pub(super) steps: u64,
    pub(super) token: u64,
    pub(super) now: u64,
    pub(super) close: bool,
}

impl Echo {
    pub(super) fn new(alloc: Global) -> Echo {
        Echo {
            alloc,
            steps: 0,
            token: 0,
            now: 0,
            close: false,
        }
    }

    /// What is put out at a path where the step succeeds.
    fn put_out(&self, token: u64, request: &Request) -> Result<Vec<Output>, AllocError> {
        match request.path.as_str() {
            "/other" => self.anothers(token, request),
            "/params" => self.params(token, request),
            "/park" => one(self.alloc, Output::Moved),
            "/refuse" => one(self.alloc, refused(token, Cause::TableFull)),
            path => self.answers(token, request, path.as_bytes()),
        }
    }

    /// What a step by a request answers.
    fn outputs(&self, token: u64, request: &Request) -> Result<Vec<Output>, StepFault> {
        match fault_at(request.path.as_str()) {
            Some(fault) => Err(fault),
            None => Ok(self.put_out(token, request)?),
        }
    }

    /// An answer.
    fn answers(
        &self,
        token: u64,
        request: &Request,
        text: &[u8],
    ) -> Result<Vec<Output>, AllocError> {
        one(self.alloc, answer_to(self.alloc, token, request, text)?)
    }

    /// The parameters as an answer.
    fn params(&self, token: u64, request: &Request) -> Result<Vec<Output>, AllocError> {
        let text = params_of(self.alloc, request)?;
        self.answers(token, request, text.as_slice())
    }

    /// One more answer.
    fn add(
        &self,
        outputs: &mut Vec<Output>,
        token: u64,
        request: &Request,
        text: &[u8],
    ) -> Result<(), AllocError> {
        push(outputs, answer_to(self.alloc, token, request, text)?)
    }

    /// A refusal and an answer to another, and two to the one who asked.
    fn add_anothers(
        &self,
        outputs: &mut Vec<Output>,
        token: u64,
        request: &Request,
    ) -> Result<(), AllocError> {
        let other = token.wrapping_add(1);
        push(outputs, refused(other, Cause::Deadline))?;
        self.add(outputs, other, request, b"another's")?;
        self.add(outputs, token, request, b"its own")?;
        self.add(outputs, token, request, b"again")
    }

    fn anothers(&self, token: u64, request: &Request) -> Result<Vec<Output>, AllocError> {
        let mut outputs = Vec::new(self.alloc);
        match self.add_anothers(&mut outputs, token, request) {
            Ok(()) => Ok(outputs),
            Err(fault) => Err(fault),
        }
    }
}

/// The fault of a step at a path.
fn fault_at(path: &str) -> Option<StepFault> {
    match path {
        "/full" => Some(StepFault::Full),
        "/memory" => Some(StepFault::Memory),
        "/device" => Some(StepFault::Device),
        "/failed" => Some(StepFault::Failed),
        _ => None,
    }
}

fn push(outputs: &mut Vec<Output>, output: Output) -> Result<(), AllocError> {
    match outputs.push(output) {
        Ok(()) => Ok(()),
        Err(_) => Err(AllocError),
    }
}

/// One output.
fn one(alloc: Global, output: Output) -> Result<Vec<Output>, AllocError> {
    let mut outputs = Vec::new(alloc);
    match push(&mut outputs, output) {
        Ok(()) => Ok(outputs),
        Err(fault) => Err(fault),
    }
}

fn refused(token: u64, cause: Cause) -> Output {
    Output::Refuse { token, cause }
}

/// The parameters of a request, a line each.
fn params_of(alloc: Global, request: &Request) -> Result<Vec<u8>, AllocError> {
    let mut text = Vec::new(alloc);
    for param in request.params.as_slice() {
        add_param(&mut text, param)?;
    }
    Ok(text)
}

/// Adds the line of a parameter.
fn add_param(text: &mut Vec<u8>, param: &Param) -> Result<(), AllocError> {
    text.extend_from_slice(param.name.as_str().as_bytes())?;
    text.extend_from_slice(b"=")?;
    text.extend_from_slice(param.value.as_str().as_bytes())?;
    text.extend_from_slice(b"\n")
}

fn body_of(alloc: Global, text: &[u8]) -> Result<Sequence<u8>, AllocError> {
    let mut body = Sequence::new(alloc);
    body.extend_from_slice(text)?;
    Ok(body)
}

/// An answer with status 200 and no fields.
fn answer_to(
    alloc: Global,
    token: u64,
    request: &Request,
    text: &[u8],
) -> Result<Output, AllocError> {
    let body = body_of(alloc, text)?;
    Ok(Output::Answer {
        token,
        response: Response {
            status: StatusCode::OK,
            fields: Sequence::new(alloc),
            body,
            head_only: request.method.as_str() == "HEAD",
            close: request.close,
        },
    })
}

impl Site for Echo {
    ghost steps = { λ old moment input answer new. ⊤ };

    ghost site_valid = { λ echo. ⊤ };

    fn step(&mut self, moment: Moment, input: Input) -> Result<Vec<Output>, StepFault> {
        self.steps = self.steps.wrapping_add(1);
        self.now = moment.now;
        match input {
            Input::Ask { token, request } => {
                self.token = token;
                self.close = request.close;
                self.outputs(token, &request)
            }
            _ => Ok(Vec::new(self.alloc)),
        }
    }
}

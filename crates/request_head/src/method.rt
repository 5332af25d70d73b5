ghost use Rattle.std.specs.Prelude.{◌≡◌};
ghost use Rattle.request_head.specs.HeadFields.{method_named, has_body as spec_has_body};

/// The method of a request (RFC 9110, section 9), in the case of letters that it stands in.
#[derive(Clone, Copy, Debug, PartialEq, Eq)]
pub enum Method {
    Get,
    Head,
    Post,
    Put,
    Other,
}

impl Method {
    pub fn named(name: &[u8]) -> Method
        ensures { result ≡ method_named name.now }
    {
        if name == b"GET".as_slice() {
            Method::Get
        } else if name == b"HEAD".as_slice() {
            Method::Head
        } else if name == b"POST".as_slice() {
            Method::Post
        } else if name == b"PUT".as_slice() {
            Method::Put
        } else {
            Method::Other
        }
    }

    /// Whether a request of this method has a body, and so has to tell its length.
    pub fn has_body(self) -> bool
        ensures { result ≡ spec_has_body self }
    {
        match self {
            Method::Post | Method::Put => true,
            Method::Get | Method::Head | Method::Other => false,
        }
    }
}

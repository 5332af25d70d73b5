//! The requests of clients and bots, and the addresses that they go to, at work.
ghost use Rattle.std.specs.Prelude.{◌≡◌, [], Some, None, codes};
ghost use Rattle.client_requests.specs.Requests.{request_text};
ghost use Rattle.url.specs.declared.host.Host.TheVariants.{Domain};
ghost use Rattle.client_requests.specs.Addresses.{texts_of, url_texts};
ghost use Rattle.base_examples.specs.RequestExamples.{url_of};

/// A request names its method and target, its host, its caller and the length of its body, in this
/// order, and then comes the body.
pub fn a_request_is_its_line_its_three_fields_and_its_body()
    ensures { request_text (codes "POST") (codes "/bot/poll") (codes "127.0.0.1:8080") (codes "ana") (codes "{\"a\":\"0123\"}")
        ≡ codes "POST /bot/poll HTTP/1.1\r\nHost: 127.0.0.1:8080\r\nX-Swarming-Caller: ana\r\nContent-Length: 12\r\n\r\n{\"a\":\"0123\"}" }
{}

/// A server without a port is dialed at 80, and its host is named without one.
pub fn a_server_without_a_port_is_dialed_at_80()
    ensures { texts_of (codes "h.example") None ≡ (codes "h.example:80", codes "h.example") }
{}

/// A server with a port is dialed there, and its host is named with it.
pub fn a_server_with_a_port_is_dialed_and_named_with_it()
    ensures { texts_of (codes "h.example") (Some 8080) ≡ (codes "h.example:8080", codes "h.example:8080") }
{}

/// Only an `http` URL with a host is the address of a server.
pub fn only_an_http_url_with_a_host_is_an_address()
    ensures http { url_texts (url_of (codes "http") (Some (Domain (codes "h")))) ≡ Some (codes "h:81", codes "h:81") }
    ensures https { url_texts (url_of (codes "https") (Some (Domain (codes "h")))) ≡ None }
    ensures ftp { url_texts (url_of (codes "ftp") (Some (Domain (codes "h")))) ≡ None }
    ensures no_host { url_texts (url_of (codes "http") None) ≡ None }
{}

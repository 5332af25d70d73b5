mod cuts;
mod links_and_clocks;
mod records;
mod turns;

/// A request for a task.
const NEW_TASK: &[u8] =
    b"POST /prpc/swarming.v2.Tasks/NewTask HTTP/1.1\r\nHost: lab\r\nX-Swarming-Caller: ana\r\nContent-Length: 148\r\n\r\n{\"task_slices\":[{\"expiration_secs\":600,\"wait_for_capacity\":true,\"properties\":{\"command\":[\"true\"],\"dimensions\":[{\"key\":\"pool\",\"value\":\"default\"}]}}]}";
